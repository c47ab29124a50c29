//! What each event makes of the core, if it isn't refused. What may run out of memory comes
//! first, so that the core is then as it was.

ghost use Rattle.std.specs.Prelude.{◌≡◌, ◌<◌, ◌≤◌, ◌++◌, None, true, false, length, OnOk, OnErr, IfOk, option_map, vec_len, vec_capacity};
ghost use Rattle.dc_core.specs.Lives.{Lives};
ghost use Rattle.dc_core.specs.Machine.{done, ended, event_by, actor_at, next_word};
ghost use Rattle.dc_core.specs.Machine.Act.{Begin, Take, Shut, Write, Open, Commit, Give, Note as Noting, Read, Pivot, Check, Again, Quit};
ghost use Rattle.dc_core.specs.Refusals.{Answers};
ghost use Rattle.dc_core.specs.Shown.{state_of, actor_shown, all_shown, call_of, made_by, reply_in, tree_in};
ghost use Rattle.dc_events.specs.Noted.{answer_in};
ghost use Rattle.dc_plain.specs.Requests.{request_of, answer_of};

use crate::actor::Actor;
use crate::state::{Finished, State};
use dc_names::NoMemory;
use dc_plain::{Call, OwnCall, PlainTree, Reply, same_tree_tells_whether_trees_are_one};
use std::alloc::Global;

impl State {
    /// A call becomes the actor's.
    pub fn do_begin(&mut self, alloc: Global, actor: u64, call: &Call) -> Result<(), NoMemory>
        requires { actor < length self.old.actors.items }
        ensures done { OnOk result (state_of self.new
            ≡ done (state_of self.old) actor (Begin (request_of call.now))) }
        ensures err { OnErr result (state_of self.new ≡ state_of self.old) }
    {
        let call = OwnCall::of(alloc, call)?;
        self.actors[actor as usize].begin(call);
        Ok(())
    }

    /// The actor gets the lock.
    pub fn do_take(&mut self, actor: u64)
        requires room { actor < length self.old.actors.items }
        requires words { 2 ≤ length self.old.words.items }
        ensures { state_of self.new ≡ done (state_of self.old) actor Take }
    {
        let clock = self.words[0];
        self.words[1] = 1;
        self.actors[actor as usize].take(clock);
    }

    /// The count of a row becomes odd.
    pub fn do_shut(&mut self, actor: u64, row: u64)
        requires lives { Lives (state_of self.old) }
        requires may { Answers (state_of self.old) (event_by actor (Shut row)) None }
        ensures { state_of self.new ≡ done (state_of self.old) actor (Shut row) }
    {
        let base = self.base(row);
        self.words[base] += 1;
    }

    /// The count of a row becomes even.
    pub fn do_open(&mut self, actor: u64, row: u64)
        requires lives { Lives (state_of self.old) }
        requires may { Answers (state_of self.old) (event_by actor (Open row)) None }
        ensures { state_of self.new ≡ done (state_of self.old) actor (Open row) }
    {
        let at = self.base(row);
        self.words[at] += 1;
    }

    /// A word of a row gets a value.
    pub fn do_write(&mut self, actor: u64, row: u64, word: u64, value: u64)
        requires lives { Lives (state_of self.old) }
        requires may { Answers (state_of self.old)
            (event_by actor (Write row word value)) None }
        ensures { state_of self.new ≡ done (state_of self.old) actor (Write row word value) }
    {
        let base = self.base(row);
        self.words[base + word as usize] = value;
    }

    /// The call of the actor alters the tree and is recorded.
    pub fn do_commit(&mut self, alloc: Global, actor: u64) -> Result<(), NoMemory>
        requires lives { Lives (state_of self.old) }
        requires may { Answers (state_of self.old) (event_by actor Commit) None }
        ensures done { OnOk result (state_of self.new ≡ done (state_of self.old) actor Commit) }
        ensures err { OnErr result (state_of self.new ≡ state_of self.old) }
    {
        // Nothing may fail once the tree is altered: its change would have no record.
        self.finished.reserve(1)?;
        let clock = self.words[0];
        let reply = apply(alloc, &mut self.tree, &self.actors[actor as usize])?;
        self.words[0] = clock + 1;
        let call = self.actors[actor as usize].finish(clock + 1);
        self.finished.push_reserved(Finished {
            actor,
            call,
            reply,
            at: clock,
        });
        Ok(())
    }

    /// The lock is given back.
    pub fn do_give(&mut self, actor: u64)
        requires room { actor < length self.old.actors.items }
        requires words { 2 ≤ length self.old.words.items }
        ensures { state_of self.new ≡ done (state_of self.old) actor (Give false) }
    {
        self.words[1] = 0;
        self.actors[actor as usize].holds = false;
    }

    /// The call of the actor is answered and recorded, and the lock given back.
    pub fn do_answer(&mut self, alloc: Global, actor: u64) -> Result<(), NoMemory>
        requires lives { Lives (state_of self.old) }
        requires may { Answers (state_of self.old) (event_by actor (Give true)) None }
        ensures done { OnOk result
            (state_of self.new ≡ done (state_of self.old) actor (Give true)) }
        ensures err { OnErr result (state_of self.new ≡ state_of self.old) }
    {
        same_tree_tells_whether_trees_are_one();
        self.finished.reserve(1)?;
        let clock = self.words[0];
        let reply = apply(alloc, &mut self.tree, &self.actors[actor as usize])?;
        self.words[1] = 0;
        let call = self.actors[actor as usize].release(clock);
        self.finished.push_reserved(Finished {
            actor,
            call,
            reply,
            at: clock,
        });
        Ok(())
    }

    /// The count of a row is noted.
    pub fn do_note(&mut self, alloc: Global, actor: u64, row: u64) -> Result<(), NoMemory>
        requires lives { Lives (state_of self.old) }
        requires may { Answers (state_of self.old) (event_by actor (Noting row)) None }
        ensures done { OnOk result
            (state_of self.new ≡ done (state_of self.old) actor (Noting row)) }
        ensures err { OnErr result (state_of self.new ≡ state_of self.old) }
    {
        let count = self.count(row);
        self.actors[actor as usize].note(alloc, row, count)
    }

    /// The last note gets the next word of its row.
    pub fn do_read(&mut self, actor: u64) -> Result<(), NoMemory>
        requires lives { Lives (state_of self.old) }
        requires may { Answers (state_of self.old) (event_by actor Read) None }
        ensures done { OnOk result (state_of self.new ≡ done (state_of self.old) actor Read) }
        ensures err { OnErr result (state_of self.new ≡ state_of self.old) }
    {
        let word = self.next_word(actor);
        self.actors[actor as usize].read(word)
    }

    /// What the last note of an actor reads next.
    fn next_word(&self, actor: u64) -> u64
        requires lives { Lives (state_of self.now) }
        requires may { Answers (state_of self.now) (event_by actor Read) None }
        ensures { result ≡ next_word (state_of self.now) (actor_at (state_of self.now) actor).walk }
    {
        let one = &self.actors[actor as usize];
        let last = one.notes.len() - 1;
        let note = &one.notes[last];
        self.word_after(note)
    }

    /// The clock is loaded; a look-up that needs no note is recorded.
    pub fn do_pivot(&mut self, alloc: Global, actor: u64) -> Result<(), NoMemory>
        requires lives { Lives (state_of self.old) }
        requires may { Answers (state_of self.old) (event_by actor Pivot) None }
        ensures done { OnOk result (state_of self.new ≡ done (state_of self.old) actor Pivot) }
        ensures err { OnErr result (state_of self.new ≡ state_of self.old) }
    {
        // Room for a record comes first: no walk may end without its answer.
        self.finished.reserve(1)?;
        let clock = self.words[0];
        let one = &mut self.actors[actor as usize];
        let reply = one.turn(alloc, clock)?;
        conclude(&mut self.finished, one, actor, reply);
        Ok(())
    }

    /// A note is checked; a look-up that the checked notes answer is recorded.
    pub fn do_check(&mut self, alloc: Global, actor: u64, i: u64) -> Result<(), NoMemory>
        requires lives { Lives (state_of self.old) }
        requires may { Answers (state_of self.old) (event_by actor (Check i)) None }
        ensures done { OnOk result (state_of self.new ≡ done (state_of self.old) actor (Check i)) }
        ensures err { OnErr result (state_of self.new ≡ state_of self.old) }
    {
        // Room for a record comes first, as at the pivot.
        self.finished.reserve(1)?;
        let one = &mut self.actors[actor as usize];
        let reply = one.check(alloc, i)?;
        conclude(&mut self.finished, one, actor, reply);
        Ok(())
    }

    /// Notes and pivot are dropped.
    pub fn do_again(&mut self, actor: u64)
        requires { actor < length self.old.actors.items }
        ensures { state_of self.new ≡ done (state_of self.old) actor Again }
    {
        self.actors[actor as usize].again();
    }

    /// The call is given up.
    pub fn do_quit(&mut self, actor: u64)
        requires room { actor < length self.old.actors.items }
        requires busy { (actor_at (state_of self.old) actor).walk.busy ≡ true }
        ensures { state_of self.new ≡ done (state_of self.old) actor Quit }
    {
        let _call = self.actors[actor as usize].end();
    }
}

/// The call of an actor is made on the tree. After `NoMemory` the tree is as it was.
fn apply(alloc: Global, tree: &mut PlainTree, one: &Actor) -> Result<Reply, NoMemory>
    requires { (actor_shown one.now).walk.busy ≡ true }
    ensures reply { IfOk result (λ reply.
        answer_of reply ≡ reply_in tree.old (call_of one.now)) }
    ensures tree { OnOk result (tree.new.tree ≡ tree_in tree.old (call_of one.now)) }
    ensures limit { tree.new.limit ≡ tree.old.limit }
    ensures err { OnErr result (tree.new ≡ tree.old) }
{
    match &one.call {
        Some(call) => tree.apply(alloc, &call.as_call()),
        // The caller knows that the actor has a call.
        None => unreachable!(),
    }
}

/// A look-up that is answered is recorded at its pivot, for which there is room.
fn conclude(finished: &mut Vec<Finished>, one: &mut Actor, actor: u64, reply: Option<Reply>)
    requires space { vec_len finished.old < vec_capacity finished.old }
    requires answer { option_map answer_of reply ≡ answer_in (actor_shown one.old).walk }
    ensures actor { actor_shown one.new
        ≡ ended (actor_shown one.old) (option_map answer_of reply) }
    ensures record_made { all_shown finished.new.items
        ≡ all_shown finished.old.items ++ made_by actor one.old reply }
{
    let Some(reply) = reply else { return };
    // The pivot is read before the call ends, which drops it.
    let at = one.pivot.unwrap_or(0);
    let call = one.end();
    finished.push_reserved(Finished {
        actor,
        call,
        reply,
        at,
    });
}
