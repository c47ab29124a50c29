//! What the events of a walk make of an actor.

ghost use Rattle.std.specs.Prelude.{◌≡◌, ◌↔◌, ◌+◌, ◌<◌, ◌≤◌, true, false, length, option_map, IsTrue, OnOk, OnErr, IfOk};
ghost use Rattle.dc_core.specs.Shown.{actor_shown, note_shown};
ghost use Rattle.dc_core.specs.Machine.{idle, gone_again, having_noted, having_read, having_checked, turning};
ghost use Rattle.dc_core.specs.Refusals.{NoneWhole, IsUncheckable};
ghost use Rattle.dc_core.specs.Told.{AreSpelled, with_mark};
ghost use Rattle.dc_events.specs.Noted.{answer_in};
ghost use Rattle.dc_events.specs.Rows.{IsWhole};
ghost use Rattle.dc_events.specs.Walks.{walk_begun, no_walk, walk_marked, note_of, extended};
ghost use Rattle.dc_plain.specs.OwnCalls.{own_request};
ghost use Rattle.dc_plain.specs.Requests.{answer_of};

use crate::actor::{Actor, Note};
use crate::facts::{facts_of, rows_of};
use dc_names::NoMemory;
use dc_plain::{OwnCall, Reply, answer};
use dc_row::ROW_WORDS;
use std::alloc::Global;

impl Note {
    /// The count that was noted.
    pub fn count(&self) -> u64
        ensures { result ≡ (note_shown self.now).count }
    {
        self.words[0]
    }

    /// Whether all words of the row were read.
    pub fn is_whole(&self) -> bool
        ensures { IsTrue result ↔ IsWhole (note_shown self.now) }
    {
        self.words.len() == ROW_WORDS
    }

    /// The note becomes a checked one, or none any more.
    fn mark(&mut self, checked: bool)
        ensures { note_shown self.new ≡ record (note_shown self.old) { checked = checked } }
    {
        self.checked = checked;
    }

    /// A word is added.
    fn push(&mut self, word: u64) -> Result<(), NoMemory>
        ensures done { OnOk result (note_shown self.new ≡ extended (note_shown self.old) word) }
        ensures err { OnErr result (note_shown self.new ≡ note_shown self.old) }
    {
        self.words.push(word)?;
        Ok(())
    }
}

impl Actor {
    /// An actor without a call, which has seen nothing.
    pub fn new(alloc: Global) -> Actor
        ensures { actor_shown result ≡ idle }
    {
        Actor {
            call: None,
            notes: Vec::new(alloc),
            pivot: None,
            seen: 0,
            holds: false,
            loads: 0,
        }
    }

    /// Takes up a call, with neither notes nor a pivot.
    pub fn begin(&mut self, call: OwnCall)
        ensures { actor_shown self.new
            ≡ record (actor_shown self.old) { walk = walk_begun (own_request call) } }
    {
        // A pivot that was left over would let this call be answered at a point before it began.
        self.call = Some(call);
        self.again();
    }

    /// Forgets what the walk has found, so that it begins anew.
    pub fn again(&mut self)
        ensures { actor_shown self.new ≡ gone_again (actor_shown self.old) }
    {
        self.notes.clear();
        self.pivot = None;
    }

    /// Ends the call that the actor makes, and answers it.
    pub fn end(&mut self) -> OwnCall
        requires { (actor_shown self.old).walk.busy ≡ true }
        ensures walk { actor_shown self.new ≡ record (actor_shown self.old) { walk = no_walk } }
        ensures call { own_request result ≡ (actor_shown self.old).walk.call }
    {
        let call = self.call.take().unwrap();
        self.again();
        call
    }

    /// The number of loads after one more. It stays below 2^64 in every list of events that anyone
    /// can run, so this refusal is never met.
    fn next_load(&self) -> Result<u64, NoMemory>
        ensures { IfOk result (λ loads. loads ≡ self.now.loads + 1) }
    {
        self.loads.checked_add(1).ok_or(NoMemory)
    }

    /// A row's count is noted.
    pub fn note(&mut self, alloc: Global, row: u64, count: u64) -> Result<(), NoMemory>
        ensures done { OnOk result (actor_shown self.new
            ≡ having_noted (actor_shown self.old) row count) }
        ensures err { OnErr result (actor_shown self.new ≡ actor_shown self.old) }
    {
        let loads = self.next_load()?;
        let mut words = Vec::new(alloc);
        words.push(count)?;
        self.notes.push(Note {
            row,
            words,
            checked: false,
        })?;
        self.loads = loads;
        Ok(())
    }

    /// The last note gets a word more.
    pub fn read(&mut self, word: u64) -> Result<(), NoMemory>
        requires { 1 ≤ length self.old.notes.items }
        ensures done { OnOk result (actor_shown self.new
            ≡ having_read (actor_shown self.old) word) }
        ensures err { OnErr result (actor_shown self.new ≡ actor_shown self.old) }
    {
        let loads = self.next_load()?;
        let last = self.notes.len() - 1;
        self.notes[last].push(word)?;
        self.loads = loads;
        Ok(())
    }
}

impl Actor {
    /// Whether no note lacks a word.
    pub fn has_read_all(&self) -> bool
        ensures { IsTrue result ↔ NoneWhole (actor_shown self.now).walk }
    {
        match self.notes.last() {
            Some(note) => note.is_whole(),
            None => true,
        }
    }

    /// Whether a note isn't there, or isn't whole, or is checked.
    pub fn is_uncheckable(&self, i: u64) -> bool
        ensures { IsTrue result ↔ IsUncheckable (actor_shown self.now).walk i }
    {
        match self.notes.get(i as usize) {
            Some(note) => !note.is_whole() || note.checked,
            None => true,
        }
    }

    /// The call is answered, and the clock is seen.
    pub fn finish(&mut self, clock: u64) -> OwnCall
        requires { (actor_shown self.old).walk.busy ≡ true }
        ensures shown { actor_shown self.new
            ≡ record (actor_shown self.old) { walk = no_walk; seen = clock } }
        ensures call { own_request result ≡ (actor_shown self.old).walk.call }
    {
        self.seen = clock;
        self.end()
    }

    /// The call is answered and the clock is seen as the lock is given back.
    pub fn release(&mut self, clock: u64) -> OwnCall
        requires { (actor_shown self.old).walk.busy ≡ true }
        ensures shown { actor_shown self.new
            ≡ record (actor_shown self.old) { walk = no_walk; seen = clock; holds = false } }
        ensures call { own_request result ≡ (actor_shown self.old).walk.call }
    {
        self.holds = false;
        self.finish(clock)
    }

    /// The actor gets the lock, and sees the clock.
    pub fn take(&mut self, clock: u64)
        ensures { actor_shown self.new
            ≡ record (actor_shown self.old) { holds = true; seen = clock } }
    {
        self.holds = true;
        self.seen = clock;
    }

    /// What the checked notes answer to the call.
    fn answer(&self, alloc: Global) -> Result<Option<Reply>, NoMemory>
        requires { (actor_shown self.now).walk.busy ≡ true →
            AreSpelled (actor_shown self.now).walk.notes }
        ensures { IfOk result (λ reply.
            option_map answer_of reply ≡ answer_in (actor_shown self.now).walk) }
    {
        let Some(call) = &self.call else {
            return Ok(None);
        };
        let rows = rows_of(alloc, &self.notes)?;
        let facts = facts_of(alloc, &rows)?;
        answer(alloc, &facts, &call.as_call())
    }

    /// The clock is loaded: the pivot of the call, if there is one.
    pub fn turn(&mut self, alloc: Global, clock: u64) -> Result<Option<Reply>, NoMemory>
        requires { (actor_shown self.old).walk.busy ≡ true →
            AreSpelled (actor_shown self.old).walk.notes }
        ensures done { OnOk result (actor_shown self.new
            ≡ turning (actor_shown self.old) clock) }
        ensures reply { IfOk result (λ reply.
            option_map answer_of reply ≡ answer_in (actor_shown self.new).walk) }
        ensures err { OnErr result (actor_shown self.new ≡ actor_shown self.old) }
    {
        let loads = self.next_load()?;
        let reply = self.answer(alloc)?;
        self.pivot = if self.call.is_some() {
            Some(clock)
        } else {
            None
        };
        self.seen = clock;
        self.loads = loads;
        Ok(reply)
    }

    /// A note is checked. If memory is refused it is unchecked again.
    pub fn check(&mut self, alloc: Global, i: u64) -> Result<Option<Reply>, NoMemory>
        requires room { i < length self.old.notes.items }
        requires fresh { (note_of (actor_shown self.old).walk i).checked ≡ false }
        requires spelled { AreSpelled (walk_marked (actor_shown self.old).walk i).notes }
        ensures done { OnOk result (actor_shown self.new
            ≡ having_checked (actor_shown self.old) i) }
        ensures reply { IfOk result (λ reply.
            option_map answer_of reply ≡ answer_in (actor_shown self.new).walk) }
        ensures err { OnErr result (actor_shown self.new ≡ actor_shown self.old) }
    {
        // The note counts as checked while the answer is sought, and no longer if that fails: its
        // row may be another when it is checked again.
        let loads = self.next_load()?;
        self.mark(i, true);
        match self.answer(alloc) {
            Ok(reply) => {
                self.loads = loads;
                Ok(reply)
            }
            Err(NoMemory) => {
                self.mark(i, false);
                Err(NoMemory)
            }
        }
    }

    /// A note becomes a checked one, or none any more.
    fn mark(&mut self, i: u64, checked: bool)
        requires { i < length self.old.notes.items }
        ensures { actor_shown self.new
            ≡ with_mark (actor_shown self.old) i checked }
    {
        self.notes[i as usize].mark(checked);
    }
}
