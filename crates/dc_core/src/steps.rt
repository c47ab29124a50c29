//! Each act: its tests, and then its effect.

ghost use Rattle.dc_core.specs.Lives.{Lives};
ghost use Rattle.dc_core.specs.Machine.{event_by};
ghost use Rattle.dc_core.specs.Machine.Act.{Begin, Take, Shut, Write, Open, Commit, Give, Note as Noting, Read, Pivot, Check, Again, Quit};
ghost use Rattle.dc_core.specs.Shown.{state_of, event_shown};
ghost use Rattle.dc_core.specs.Steps.{Steps};
ghost use Rattle.dc_plain.specs.Requests.{request_of};

use crate::state::State;
use crate::{Act, Event, Refused};
use dc_plain::Call;
use std::alloc::Global;

impl State {
    /// Does an event, or refuses it.
    #[tactic(auto, using(crate::proofs::Tests::by_act))]
    pub fn step(&mut self, alloc: Global, event: Event) -> Result<(), Refused>
        requires { Lives (state_of self.old) }
        ensures { Steps (state_of self.old) (event_shown event.entry) result (state_of self.new) }
    {
        let actor = event.actor;
        match event.act {
            Act::Begin(call) => self.begin(alloc, actor, &call),
            Act::Take => self.take(actor),
            Act::Shut(row) => self.shut(actor, row),
            Act::Write(row, word, value) => self.write(actor, row, word, value),
            Act::Open(row) => self.open(actor, row),
            Act::Commit => self.commit(alloc, actor),
            Act::Give(answer) => self.give(alloc, actor, answer),
            Act::Note(row) => self.note(alloc, actor, row),
            Act::Read => self.read(actor),
            Act::Pivot => self.pivot(alloc, actor),
            Act::Check(i) => self.check(alloc, actor, i),
            Act::Again => self.again(actor),
            Act::Quit => self.quit(actor),
        }
    }

    /// The tests of a begin, and then its effect.
    fn begin(&mut self, alloc: Global, actor: u64, call: &Call) -> Result<(), Refused>
        requires { Lives (state_of self.old) }
        ensures { Steps (state_of self.old) (event_by actor (Begin (request_of call.now))) result
            (state_of self.new) }
    {
        self.may_begin(actor, call)?;
        self.do_begin(alloc, actor, call)?;
        Ok(())
    }

    /// The tests of a take, and then its effect.
    fn take(&mut self, actor: u64) -> Result<(), Refused>
        requires { Lives (state_of self.old) }
        ensures { Steps (state_of self.old) (event_by actor Take) result
            (state_of self.new) }
    {
        self.may_take(actor)?;
        self.do_take(actor);
        Ok(())
    }

    /// The tests of a shut, and then its effect.
    fn shut(&mut self, actor: u64, row: u64) -> Result<(), Refused>
        requires { Lives (state_of self.old) }
        ensures { Steps (state_of self.old) (event_by actor (Shut row)) result
            (state_of self.new) }
    {
        self.may_shut(actor, row)?;
        self.do_shut(actor, row);
        Ok(())
    }

    /// The tests of a write, and then its effect.
    fn write(&mut self, actor: u64, row: u64, word: u64, value: u64) -> Result<(), Refused>
        requires { Lives (state_of self.old) }
        ensures { Steps (state_of self.old) (event_by actor (Write row word value)) result
            (state_of self.new) }
    {
        self.may_write(actor, row, word, value)?;
        self.do_write(actor, row, word, value);
        Ok(())
    }

    /// The tests of an open, and then its effect.
    fn open(&mut self, actor: u64, row: u64) -> Result<(), Refused>
        requires { Lives (state_of self.old) }
        ensures { Steps (state_of self.old) (event_by actor (Open row)) result
            (state_of self.new) }
    {
        self.may_open(actor, row)?;
        self.do_open(actor, row);
        Ok(())
    }

    /// The tests of a commit, and then its effect.
    fn commit(&mut self, alloc: Global, actor: u64) -> Result<(), Refused>
        requires { Lives (state_of self.old) }
        ensures { Steps (state_of self.old) (event_by actor Commit) result
            (state_of self.new) }
    {
        self.may_commit(alloc, actor)?;
        self.do_commit(alloc, actor)?;
        Ok(())
    }

    /// The tests of a give, with an answer or without, and then its effect.
    fn give(&mut self, alloc: Global, actor: u64, answer: bool) -> Result<(), Refused>
        requires { Lives (state_of self.old) }
        ensures { Steps (state_of self.old) (event_by actor (Give answer)) result
            (state_of self.new) }
    {
        if answer {
            self.may_answer(alloc, actor)?;
            self.do_answer(alloc, actor)?;
        } else {
            self.may_give(actor)?;
            self.do_give(actor);
        }
        Ok(())
    }

    /// The tests of a note, and then its effect.
    fn note(&mut self, alloc: Global, actor: u64, row: u64) -> Result<(), Refused>
        requires { Lives (state_of self.old) }
        ensures { Steps (state_of self.old) (event_by actor (Noting row)) result
            (state_of self.new) }
    {
        self.may_note(actor, row)?;
        self.do_note(alloc, actor, row)?;
        Ok(())
    }

    /// The tests of a read, and then its effect.
    fn read(&mut self, actor: u64) -> Result<(), Refused>
        requires { Lives (state_of self.old) }
        ensures { Steps (state_of self.old) (event_by actor Read) result
            (state_of self.new) }
    {
        self.may_read(actor)?;
        self.do_read(actor)?;
        Ok(())
    }

    /// The tests of a pivot, and then its effect.
    fn pivot(&mut self, alloc: Global, actor: u64) -> Result<(), Refused>
        requires { Lives (state_of self.old) }
        ensures { Steps (state_of self.old) (event_by actor Pivot) result
            (state_of self.new) }
    {
        self.may_pivot(actor)?;
        self.do_pivot(alloc, actor)?;
        Ok(())
    }

    /// The tests of a check, and then its effect.
    fn check(&mut self, alloc: Global, actor: u64, i: u64) -> Result<(), Refused>
        requires { Lives (state_of self.old) }
        ensures { Steps (state_of self.old) (event_by actor (Check i)) result
            (state_of self.new) }
    {
        self.may_check(actor, i)?;
        self.do_check(alloc, actor, i)?;
        Ok(())
    }

    /// The tests of an again, and then its effect.
    fn again(&mut self, actor: u64) -> Result<(), Refused>
        requires { Lives (state_of self.old) }
        ensures { Steps (state_of self.old) (event_by actor Again) result
            (state_of self.new) }
    {
        self.may_go_again(actor)?;
        self.do_again(actor);
        Ok(())
    }

    /// The tests of a quit, and then its effect.
    fn quit(&mut self, actor: u64) -> Result<(), Refused>
        requires { Lives (state_of self.old) }
        ensures { Steps (state_of self.old) (event_by actor Quit) result
            (state_of self.new) }
    {
        self.may_go_again(actor)?;
        self.do_quit(actor);
        Ok(())
    }
}
