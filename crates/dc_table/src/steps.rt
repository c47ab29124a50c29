//! The steps of the one that gets, has or gives the lock. Each is the event of its name.

ghost use Rattle.std.specs.Prelude.{◌≡◌, ◌+◌, ◌<◌, false, true, IfSome, IfNone, IfOk, IfErr};
ghost use Rattle.dc_events.specs.Effects.{wrote, gave};
ghost use Rattle.dc_events.specs.Rows.{base_of};
ghost use Rattle.dc_plain.specs.Requests.{request_of};
ghost use Rattle.dc_plain.specs.Runs.{alters};
ghost use Rattle.dc_names.specs.declared.limits.TheConstants.{ROW_WORDS as row_words};
ghost use Rattle.dc_table.specs.Holders.{pass_of, answered_by, committed_by, next_count, Freed, Locked, MayAnswer, FoundHeld, Raises, StaysAsIs, StaysHeld, TriedOnce};
ghost use Rattle.dc_table.specs.Passes.{known, view, share, Fits, IsSamePass, IsIdle, IsHolder, CanShut, CanPut, CanOpen, CanCommit};
ghost use Rattle.dc_table.specs.Plays.{Took, Home};
ghost use Rattle.dc_table.specs.Walking.{HasNoted, IsTrueNow};

use crate::acts::waits::Waits;
use crate::acts::wakes::{Wakes, wake};
use crate::holder::Holder;
use crate::plays::{Answer, Asked, Commit, Compare, Give, Put, Raise, Take};
use crate::shared::Shared;
use crate::table::{Guarded, Pass};
use crate::{CLOCK, FIRST_ROW, FREE, LOCK, TAKEN};
use dc_events::events_keep_the_rule;
use dc_plain::Call;
use dc_row::ROW_WORDS;
use std::marker::Brand;
use std::sync::Wait;
use std::sync::atomic::Ordering::Relaxed;

impl Shared {
    /// Tries the lock once, and takes what it guards out of its slot. If the lock is held, it watches that
    /// for a few microseconds before.
    pub(crate) fn try_take(&self, pass: &mut Pass) -> Option<Box<Guarded>>
        requires pass { Fits self.now pass.old × IsIdle pass.old }
        ensures same { IsSamePass pass.old pass.new }
        ensures taken { IfSome result (λ guarded.
            IsHolder pass.new × Took (known pass.old) (known pass.new) guarded.value) }
        ensures once { TriedOnce pass.old pass.new }
        ensures held { IfNone result (FoundHeld pass.old pass.new) }
    {
        events_keep_the_rule();
        self.watch_briefly();
        if self
            .table
            .shared
            .compare_exchange::<Take>(pass, LOCK, FREE, TAKEN)
            != FREE
        {
            return None;
        }
        self.table.shared.exchange(pass, 0, None)
    }

    /// Waits for the lock, and takes what it guards out of its slot.
    fn take<W: Waits, R: Wait>(&self, rt: &R, pass: &mut Pass) -> Box<Guarded>
        requires pass { Fits self.now pass.old × IsIdle pass.old }
        ensures same { IsSamePass pass.old pass.new }
        ensures taken { IsHolder pass.new × Took (known pass.old) (known pass.new) result.value }
        ensures came { W.came pass.new }
    {
        let mut turn = W::come(pass);
        for _ in rt.forever() {
            if self.may_try::<W>(&turn) {
                if let Some(guarded) = W::try_take(self, pass, &mut turn) {
                    self.leave::<W>(&mut turn);
                    W::hold(turn, pass);
                    return guarded;
                }
            }
            self.wait::<W, R>(rt, &mut turn);
        }
        // The loop above ends by its return alone.
        unreachable!()
    }

    /// Tries once to get the lock with what it guards. If another pass has it, this one comes back after a
    /// few microseconds at most: for so long it watches the lock before it tries, and it never sleeps.
    #[must_use]
    pub fn try_lock<'t>(
        &'t self,
        pass: &'t mut Pass,
    ) -> Result<(Holder<'t>, Box<Guarded>), &'t mut Pass>
        requires pass { Fits self.now pass.old × IsIdle pass.old }
        ensures got { IfOk result (λ r.
            (r.0.pass.ghost_name ≡ pass.entry.ghost_name) × Locked pass.old r.0 r.1.value) }
        ensures once { IfOk result (λ r. TriedOnce pass.old (pass_of r.0)) }
        ensures held { IfErr result (λ back.
            (back.ghost_name ≡ pass.entry.ghost_name) × FoundHeld pass.old back.now) }
    {
        match self.try_take(pass) {
            Some(guarded) => Ok((Holder { shared: self, pass }, guarded)),
            None => Err(pass),
        }
    }

    /// Waits for the lock, and gets it with what it guards. `W` is `Sleepers`, whom each step that frees the
    /// lock of this table then names too.
    #[must_use]
    pub fn lock<'t, W: Waits, R: Wait>(
        &'t self,
        rt: &R,
        pass: &'t mut Pass,
    ) -> (Holder<'t>, Box<Guarded>)
        requires pass { Fits self.now pass.old × IsIdle pass.old }
        ensures same_reference { result.0.pass.ghost_name ≡ pass.entry.ghost_name }
        ensures locked { Locked pass.old result.0 result.1.value }
        ensures came { W.came (pass_of result.0) }
    {
        let guarded = self.take::<W, R>(rt, pass);
        (Holder { shared: self, pass }, guarded)
    }

    /// Where a word of a row stands in the table.
    pub(crate) fn word_of(&self, row: u64, word: u64) -> usize
        requires { (row < self.now.limits.rows) × (word < row_words) }
        ensures place { result ≡ base_of row + word }
        ensures within { result < self.now.table.shared.table_id.words }
    {
        // For the proof: that the table has so few words that this is no number too great.
        let _words = self.table.word_count();
        FIRST_ROW + row as usize * ROW_WORDS + word as usize
    }
}

impl<'t> Holder<'t> {
    /// Gives the lock back with what it guards, wakes a thread that waits for it, and hands the pass back.
    pub fn give<W: Wakes>(self, guarded: Box<Guarded>) -> &'t mut Pass
        requires home { Home (known (pass_of self)) guarded.value }
        ensures same_reference { result.ghost_name ≡ self.entry.pass.ghost_name }
        ensures freed { Freed self.entry guarded.value result.now }
        ensures view { view result.now ≡ gave (view (pass_of self.entry)) }
        ensures woken { W.woken result.now }
    {
        events_keep_the_rule();
        let Holder { shared, pass } = self;
        // The slot is filled before the lock is free: turned round, the next holder would find it empty.
        shared.table.shared.exchange(pass, 0, Some(guarded));
        shared.table.shared.store::<Give>(pass, LOCK, FREE);
        // After the store: a sleeper that was woken before it would find the lock held, and sleep on with
        // nobody left to wake it.
        wake::<W>(shared, pass);
        pass
    }

    /// Gives the lock back with what it guards, answers a call that alters nothing, wakes a thread that
    /// waits for the lock, and hands the pass back.
    pub fn answer<W: Wakes>(self, guarded: Box<Guarded>, call: &Call<'_>) -> &'t mut Pass
        requires may { MayAnswer self guarded.value (request_of call.now) }
        ensures same_reference { result.ghost_name ≡ self.entry.pass.ghost_name }
        ensures freed { Freed self.entry guarded.value result.now }
        ensures view { view result.now ≡ answered_by (pass_of self.entry) (request_of call.now) }
        ensures woken { W.woken result.now }
    {
        let shared = self.shared;
        let back = self.answer_as::<Brand>(guarded, call);
        // After the lock is free, as in `give`.
        wake::<W>(shared, back);
        back
    }

    /// Gives the lock back and answers, and wakes nobody.
    fn answer_as<C: Asked>(self, guarded: Box<Guarded>, call: &Call<'_>) -> &'t mut Pass
        requires call { C.call ≡ request_of call.now }
        requires may { MayAnswer self guarded.value (request_of call.now) }
        ensures same_reference { result.ghost_name ≡ self.entry.pass.ghost_name }
        ensures freed { Freed self.entry guarded.value result.now }
        ensures view { view result.now ≡ answered_by (pass_of self.entry) (request_of call.now) }
    {
        events_keep_the_rule();
        let Holder { shared, pass } = self;
        // The slot is filled before the lock is free: turned round, the next holder would find it empty.
        shared.table.shared.exchange(pass, 0, Some(guarded));
        shared.table.shared.store::<Answer<C>>(pass, LOCK, FREE);
        pass
    }

    /// Counts a row that loses its key to another.
    pub fn count_eviction(&self) {
        self.shared.evictions.fetch_add(1, Relaxed);
    }

    /// Counts a row that has got a key, and had none.
    pub fn count_row_in_use(&self) {
        let rows = &self.shared.rows_in_use;
        // Two steps: nobody else writes it, as this pass has the lock.
        rows.store(rows.load(Relaxed).wrapping_add(1), Relaxed);
    }

    /// Counts a row that has lost its key, and got none.
    pub fn count_row_emptied(&self) {
        let rows = &self.shared.rows_in_use;
        rows.store(rows.load(Relaxed).wrapping_sub(1), Relaxed);
    }

    /// Shuts an even row, and returns its count, which is odd.
    pub fn shut_row(&mut self, row: u64) -> u64
        requires row { let p = pass_of self.old in (row < (share p).rows) × CanShut (view p) row }
        ensures held { StaysHeld self.old self.new }
        ensures same { IsSamePass (pass_of self.old) (pass_of self.new) }
        ensures shut { Raises (pass_of self.old) (pass_of self.new) row result }
    {
        events_keep_the_rule();
        let count = self.shared.word_of(row, 0);
        self.shared
            .table
            .shared
            .fetch_add::<Raise>(self.pass, count, 1)
            + 1
    }

    /// Writes a word of an odd row, from the one after its count on.
    pub fn write_word(&mut self, row: u64, word: u64, value: u64)
        requires can { CanPut (pass_of self.old) row word }
        ensures held { StaysHeld self.old self.new }
        ensures same { IsSamePass (pass_of self.old) (pass_of self.new) }
        ensures view { view (pass_of self.new)
            ≡ wrote (view (pass_of self.old)) (base_of row + word) value }
    {
        events_keep_the_rule();
        let place = self.shared.word_of(row, word);
        self.shared
            .table
            .shared
            .store::<Put>(self.pass, place, value);
    }

    /// Opens an odd row, whose words spell what is true now.
    pub fn open_row(&mut self, row: u64)
        requires row { let p = pass_of self.old in (row < (share p).rows)
            × CanOpen (share p).limit (view p) row }
        ensures held { StaysHeld self.old self.new }
        ensures same { IsSamePass (pass_of self.old) (pass_of self.new) }
        ensures view { let v = view (pass_of self.old) in
            view (pass_of self.new) ≡ wrote v (base_of row) (next_count v row) }
    {
        events_keep_the_rule();
        let count = self.shared.word_of(row, 0);
        self.shared
            .table
            .shared
            .fetch_add::<Raise>(self.pass, count, 1);
    }

    /// Whether a row has the count still with which the pass noted it before it got the lock: as note `i`,
    /// the first being 0. Then the row is as noted, and what it tells is true: no count comes back, and
    /// nobody else writes a row while the lock is held.
    pub fn is_as_noted(&mut self, i: u64, row: u64, noted: u64) -> bool
        requires noted { let p = pass_of self.old in
            (row < (share p).rows) × HasNoted (view p) i row noted }
        ensures same { StaysAsIs self.old self.new }
        ensures now { result ≡ true →
            (let p = pass_of self.old in IsTrueNow (share p).limit (view p) i) }
    {
        self.compare_as::<Brand>(i, row, noted) == noted
    }

    fn compare_as<C: Asked>(&mut self, i: u64, row: u64, noted: u64) -> u64
        requires asked { C.about ≡ i }
        requires noted { let p = pass_of self.old in
            (row < (share p).rows) × HasNoted (view p) i row noted }
        ensures same { StaysAsIs self.old self.new }
        ensures now { result ≡ noted →
            (let p = pass_of self.old in IsTrueNow (share p).limit (view p) i) }
    {
        let count = self.shared.word_of(row, 0);
        self.shared
            .table
            .shared
            .load::<Compare<C>>(self.pass, count)
    }

    /// Commits a call that alters the tree: from here on it has.
    pub fn commit(&mut self, call: &Call<'_>)
        requires can { let p = pass_of self.old in
            CanCommit (share p).limit (share p).rows (view p) (request_of call.now) }
        ensures held { StaysHeld self.old self.new }
        ensures same { IsSamePass (pass_of self.old) (pass_of self.new) }
        ensures view { view (pass_of self.new)
            ≡ committed_by (pass_of self.old) (request_of call.now) }
    {
        self.commit_as::<Brand>(call);
    }

    fn commit_as<C: Asked>(&mut self, call: &Call<'_>)
        requires call { C.call ≡ request_of call.now }
        requires can { let p = pass_of self.old in
            CanCommit (share p).limit (share p).rows (view p) (request_of call.now) }
        ensures held { StaysHeld self.old self.new }
        ensures same { IsSamePass (pass_of self.old) (pass_of self.new) }
        ensures view { view (pass_of self.new)
            ≡ committed_by (pass_of self.old) (request_of call.now) }
    {
        events_keep_the_rule();
        self.shared
            .table
            .shared
            .fetch_add::<Commit<C>>(self.pass, CLOCK, 1);
    }
}
