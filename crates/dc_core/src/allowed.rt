//! When an event is refused, and as what: the tests in their order.

ghost use Rattle.std.specs.Prelude.{◌≡◌, ◌↔◌, ◌<◌, ◌≤◌, true, false, length, IsTrue, IfOk, OnOk};
ghost use Rattle.dc_core.specs.Machine.{actor_at, event_by};
ghost use Rattle.dc_core.specs.Machine.Act.{Begin, Take, Shut, Write, Open, Commit, Give, Note as Noting, Read, Pivot, Check, Again, Quit};
ghost use Rattle.dc_core.specs.Refusals.{AtOddRow, WithCall, MayBeOpened, MayBeMade, Passes, IsEmptyAtLast};
ghost use Rattle.dc_core.specs.Lives.{Lives};
ghost use Rattle.dc_core.specs.Memory.{AnsweredAs, TestedBy};
ghost use Rattle.dc_core.specs.Shown.{state_of};
ghost use Rattle.dc_plain.specs.OwnCalls.{own_request};
ghost use Rattle.dc_plain.specs.Requests.{request_of};

use crate::Refused;
use crate::refused::refuse;
use crate::state::State;
use dc_names::MOST_COUNT;
use dc_plain::{Call, OwnCall};
use dc_row::ROW_WORDS;
use std::alloc::Global;

impl State {
    /// Whether an actor may begin a call.
    pub fn may_begin(&self, actor: u64, call: &Call) -> Result<(), Refused>
        ensures { AnsweredAs (state_of self.now) (event_by actor (Begin (request_of call.now))) result }
    {
        // For the proof: the event carries the call, of which nothing is tested.
        let _whatever = call;
        refuse(actor >= self.actors.len() as u64, Refused::Actor)?;
        let one = &self.actors[actor as usize];
        refuse(one.holds, Refused::Holder)?;
        refuse(one.call.is_some(), Refused::Unfinished)
    }

    /// Whether an actor may take the lock.
    pub fn may_take(&self, actor: u64) -> Result<(), Refused>
        requires { 2 ≤ length self.now.words.items }
        ensures { AnsweredAs (state_of self.now) (event_by actor Take) result }
    {
        refuse(actor >= self.actors.len() as u64, Refused::Actor)?;
        // Word 1 is the lock: 0 while it is free.
        refuse(self.words[1] != 0, Refused::Held)
    }

    /// Whether an actor may make the count of a row odd.
    pub fn may_shut(&self, actor: u64, row: u64) -> Result<(), Refused>
        requires { Lives (state_of self.now) }
        ensures { AnsweredAs (state_of self.now) (event_by actor (Shut row)) result }
    {
        refuse(actor >= self.actors.len() as u64, Refused::Actor)?;
        refuse(!self.actors[actor as usize].holds, Refused::NotHolder)?;
        refuse(row >= self.rows, Refused::NoRow)?;
        let count = self.count(row);
        refuse(count % 2 == 1, Refused::Odd)?;
        refuse(count == MOST_COUNT, Refused::Spent)
    }

    /// Whether an actor may write a word of a row.
    pub fn may_write(&self, actor: u64, row: u64, word: u64, value: u64) -> Result<(), Refused>
        requires { Lives (state_of self.now) }
        ensures { AnsweredAs (state_of self.now) (event_by actor (Write row word value)) result }
    {
        refuse(actor >= self.actors.len() as u64, Refused::Actor)?;
        refuse(!self.actors[actor as usize].holds, Refused::NotHolder)?;
        refuse(row >= self.rows, Refused::NoRow)?;
        refuse(word == 0 || word >= ROW_WORDS as u64, Refused::NoWord)?;
        refuse(self.count(row) % 2 == 0, Refused::Even)
    }

    /// Whether an actor may note the count of a row.
    pub fn may_note(&self, actor: u64, row: u64) -> Result<(), Refused>
        requires { Lives (state_of self.now) }
        ensures { AnsweredAs (state_of self.now) (event_by actor (Noting row)) result }
    {
        refuse(actor >= self.actors.len() as u64, Refused::Actor)?;
        let walker = &self.actors[actor as usize];
        refuse(walker.call.is_none(), Refused::NoCall)?;
        refuse(walker.pivot.is_some(), Refused::Late)?;
        refuse(row >= self.rows, Refused::NoRow)?;
        refuse(self.count(row) % 2 == 1, Refused::Odd)
    }

    /// Whether an actor may read the next word of its last note.
    pub fn may_read(&self, actor: u64) -> Result<(), Refused>
        ensures { AnsweredAs (state_of self.now) (event_by actor Read) result }
    {
        refuse(actor >= self.actors.len() as u64, Refused::Actor)?;
        let one = &self.actors[actor as usize];
        refuse(one.call.is_none(), Refused::NoCall)?;
        refuse(one.pivot.is_some(), Refused::Late)?;
        refuse(one.has_read_all(), Refused::NoNote)
    }

    /// Whether an actor may load the clock.
    pub fn may_pivot(&self, actor: u64) -> Result<(), Refused>
        ensures { AnsweredAs (state_of self.now) (event_by actor Pivot) result }
    {
        refuse(actor >= self.actors.len() as u64, Refused::Actor)?;
        let one = &self.actors[actor as usize];
        refuse(one.call.is_some() && one.pivot.is_some(), Refused::Late)
    }

    /// Whether a note of an actor stands: its row has the count that was noted.
    pub fn may_check(&self, actor: u64, i: u64) -> Result<(), Refused>
        requires { Lives (state_of self.now) }
        ensures { AnsweredAs (state_of self.now) (event_by actor (Check i)) result }
    {
        refuse(actor >= self.actors.len() as u64, Refused::Actor)?;
        let one = &self.actors[actor as usize];
        refuse(one.call.is_none(), Refused::NoCall)?;
        refuse(one.pivot.is_none(), Refused::Early)?;
        refuse(one.is_uncheckable(i), Refused::NoNote)?;
        let note = &one.notes[i as usize];
        // Counts only grow. So one that is what was noted has been so all the while since, and the row
        // with it.
        let found = self.count(note.row);
        refuse(
            found != note.count(),
            Refused::Changed(note.row, note.count(), found),
        )
    }

    /// Whether an actor may begin its walk anew, or give its call up.
    pub fn may_go_again(&self, actor: u64) -> Result<(), Refused>
        ensures again { AnsweredAs (state_of self.now) (event_by actor Again) result }
        ensures quit { AnsweredAs (state_of self.now) (event_by actor Quit) result }
    {
        refuse(actor >= self.actors.len() as u64, Refused::Actor)?;
        refuse(self.actors[actor as usize].call.is_none(), Refused::NoCall)
    }

    /// Whether an actor may make the count of a row even.
    pub fn may_open(&self, actor: u64, row: u64) -> Result<(), Refused>
        requires { Lives (state_of self.now) }
        ensures { AnsweredAs (state_of self.now) (event_by actor (Open row)) result }
    {
        self.at_odd_row(actor, row)?;
        self.may_be_opened(row)
    }

    /// Whether an actor has the lock, and the row is odd.
    fn at_odd_row(&self, actor: u64, row: u64) -> Result<(), Refused>
        requires { Lives (state_of self.now) }
        ensures tests { TestedBy (AtOddRow (state_of self.now) actor row Passes) ⊥ result }
        ensures room { OnOk result (row < self.now.rows) }
    {
        refuse(actor >= self.actors.len() as u64, Refused::Actor)?;
        refuse(!self.actors[actor as usize].holds, Refused::NotHolder)?;
        refuse(row >= self.rows, Refused::NoRow)?;
        refuse(self.count(row) % 2 == 0, Refused::Even)
    }

    /// Whether what stands in a row may be read from now on.
    fn may_be_opened(&self, row: u64) -> Result<(), Refused>
        requires lives { Lives (state_of self.now) }
        requires room { row < self.now.rows }
        ensures { TestedBy (MayBeOpened (state_of self.now) row) ⊥ result }
    {
        // What was made of an earlier answer may be false by now, so the words are held against the tree.
        refuse(!self.is_true(row), Refused::Untrue)?;
        refuse(!self.is_empty_at_last(row), Refused::Spent)
    }

    /// Whether a row is empty, if the next count is its last.
    fn is_empty_at_last(&self, row: u64) -> bool
        requires lives { Lives (state_of self.now) }
        requires room { row < self.now.rows }
        ensures { IsTrue result ↔ IsEmptyAtLast (state_of self.now) row }
    {
        if self.count(row) == MOST_COUNT - 1 {
            self.is_empty(row)
        } else {
            true
        }
    }

    /// Whether an actor may make its call, which alters the tree.
    pub fn may_commit(&self, alloc: Global, actor: u64) -> Result<(), Refused>
        requires { Lives (state_of self.now) }
        ensures { AnsweredAs (state_of self.now) (event_by actor Commit) result }
    {
        let call = self.held_call(actor)?;
        self.may_be_made(alloc, &call.as_call())
    }

    /// The call of the actor that has the lock.
    fn held_call(&self, actor: u64) -> Result<&OwnCall, Refused>
        ensures tests { TestedBy (WithCall (state_of self.now) actor Passes) ⊥ result }
        ensures call { IfOk result (λ call.
            own_request call.now ≡ (actor_at (state_of self.now) actor).walk.call) }
    {
        refuse(actor >= self.actors.len() as u64, Refused::Actor)?;
        let one = &self.actors[actor as usize];
        refuse(!one.holds, Refused::NotHolder)?;
        one.call.as_ref().ok_or(Refused::NoCall)
    }

    /// Whether a call alters the tree, the clock may still grow, and no row tells of what it alters.
    fn may_be_made(&self, alloc: Global, call: &Call) -> Result<(), Refused>
        requires { Lives (state_of self.now) }
        ensures { TestedBy (MayBeMade (state_of self.now) (request_of call.now)) (Unit {0}) result }
    {
        refuse(!self.tree.alters(alloc, call)?, Refused::Unaltered)?;
        refuse(self.clock() == MOST_COUNT, Refused::Full)?;
        // A touched row that is even could be read while it says what is true no more.
        match self.first_touched(alloc, call)? {
            Some(row) => Err(Refused::Touched(row)),
            None => Ok(()),
        }
    }

    /// Whether an actor may give the lock back.
    pub fn may_give(&self, actor: u64) -> Result<(), Refused>
        requires { Lives (state_of self.now) }
        ensures { AnsweredAs (state_of self.now) (event_by actor (Give false)) result }
    {
        refuse(actor >= self.actors.len() as u64, Refused::Actor)?;
        refuse(!self.actors[actor as usize].holds, Refused::NotHolder)?;
        match self.first_odd() {
            Some(row) => Err(Refused::OddRow(row)),
            None => Ok(()),
        }
    }

    /// Whether an actor may give the lock back and be answered, its call altering nothing.
    pub fn may_answer(&self, alloc: Global, actor: u64) -> Result<(), Refused>
        requires { Lives (state_of self.now) }
        ensures { AnsweredAs (state_of self.now) (event_by actor (Give true)) result }
    {
        self.may_give(actor)?;
        let Some(call) = &self.actors[actor as usize].call else {
            return Err(Refused::NoCall);
        };
        refuse(self.tree.alters(alloc, &call.as_call())?, Refused::Alters)
    }
}
