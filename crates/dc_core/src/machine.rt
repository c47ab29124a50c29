//! The core: every event is done or refused.

ghost use Rattle.std.specs.Prelude.{◌≡◌, ◌<◌, ◌*◌, ◌↔◌, false, Err, IfOk, IfErr, OnOk, OnErr, map};
ghost use Rattle.dc_core.specs.Listed.{AllDone, AreSpanned, IsNew, StopsFor, done_of};
ghost use Rattle.dc_core.specs.Machine.{after, after_all, clock_of, opening};
ghost use Rattle.dc_core.specs.Lives.{Lives, AreLegal};
ghost use Rattle.dc_core.specs.Memory.{AnsweredAs};
ghost use Rattle.dc_core.specs.Shown.{event_shown, finished_shown};
ghost use Rattle.dc_events.specs.Rows.{count};
ghost use Rattle.dc_names.specs.Sizes.{are_right};
ghost use Rattle.dc_names.specs.declared.sizes.MakeFault.TheVariants.{BadSize};

use crate::state::{Finished, State};
use crate::{Event, Refused};
use dc_events::{
    events_keep_the_rule, loads_tell_nothing, new_tables_have_the_rule, records_are_legal,
};
use dc_names::{BUCKET_ROWS, MakeFault, are_right};
use std::alloc::Global;
use std::marker::Model;

/// A table of shared words with its tree, any number of actors, and the records of their calls.
#[derive(Drop)]
pub struct Core {
    state: State,
}

impl Model for Core {
    ghost use Rattle.dc_core.specs.Machine.{State};

    ghost Value = { State };

    ghost use Rattle.dc_core.specs.Cores.{state_in, IsAlive};

    ghost view = { state_in };

    ghost invariant = { IsAlive };
}

impl Core {
    /// Empty rows, `BUCKET_ROWS` in each of the buckets, and actors without calls, over the root directory
    /// alone.
    pub fn new(alloc: Global, buckets: u64, actors: u64, max_inodes: u64) -> Result<Core, MakeFault>
        ensures made { IfOk result (λ core. core ≡ opening max_inodes (buckets * BUCKET_ROWS) actors) }
        ensures size { result ≡ Err BadSize ↔ are_right buckets max_inodes ≡ false }
    {
        if !are_right(buckets, max_inodes) {
            return Err(MakeFault::BadSize);
        }
        new_tables_have_the_rule();
        let state = State::new(alloc, buckets * BUCKET_ROWS, actors, max_inodes)?;
        Ok(Core { state })
    }

    /// Does an event, or refuses it: exactly if its tests say so, by the first that holds. After a
    /// refusal the core is as it was. `NoMemory` is an answer to `Begin`, `Commit`, `Give(true)`,
    /// `Note`, `Read`, `Pivot` and `Check` alone; it may stand in the place of `Unaltered`, `Full`,
    /// `Touched` or `Alters`, and else comes after all tests.
    pub fn step(&mut self, alloc: Global, event: Event) -> Result<(), Refused>
        ensures refused { AnsweredAs self.old (event_shown event.entry) result }
        ensures done { OnOk result (self.new ≡ after self.old (event_shown event.entry)) }
        ensures err { OnErr result (self.new ≡ self.old) }
        ensures rule { Lives self.new }
    {
        events_keep_the_rule();
        loads_tell_nothing();
        self.state.step(alloc, event)
    }

    /// Does the events one after the other, up to the first that is refused; its place counts from
    /// 0, and those before it stand. The n-th record of a core that was new has a begin of its call, a
    /// point at which the clock is the record's, and an end among the events.
    pub fn run(&mut self, alloc: Global, events: &[Event]) -> Result<(), (u64, Refused)>
        ensures state { self.new ≡ after_all self.old (done_of result (map event_shown events.now)) }
        ensures done { AllDone self.old (done_of result (map event_shown events.now)) }
        ensures refused { IfErr result (λ stop.
            StopsFor self.new (map event_shown events.now) stop.0 stop.1) }
        ensures spans { IsNew self.old →
            AreSpanned self.old (done_of result (map event_shown events.now)) }
    {
        let mut place = 0;
        for event in events {
            if let Err(refused) = self.follow(alloc, event) {
                return Err((place, refused));
            }
            place += 1;
        }
        Ok(())
    }

    /// Does an event that stands in a list.
    fn follow(&mut self, alloc: Global, event: &Event) -> Result<(), Refused>
        ensures refused { AnsweredAs self.old (event_shown event.now) result }
        ensures done { OnOk result (self.new ≡ after self.old (event_shown event.now)) }
        ensures err { OnErr result (self.new ≡ self.old) }
    {
        self.step(alloc, *event)
    }

    /// The answered calls, in the order in which they were recorded. They are those of a run of one
    /// thread on one plain tree.
    pub fn finished(&self) -> &[Finished]
        ensures all { map finished_shown result.now ≡ self.now.finished }
        ensures legal { AreLegal self.now }
    {
        records_are_legal();
        &self.state.finished
    }

    /// How many rows there are.
    pub fn rows(&self) -> u64
        ensures { result ≡ self.now.rows }
    {
        self.state.rows
    }

    /// The count of a row, or 0 if there is no such row.
    pub fn count(&self, row: u64) -> u64
        ensures { result ≡ count self.now.words row }
    {
        if row < self.state.rows {
            self.state.count(row)
        } else {
            0
        }
    }

    /// How many calls have altered the tree.
    pub fn clock(&self) -> u64
        ensures { result ≡ clock_of self.now }
    {
        self.state.words[0]
    }
}
