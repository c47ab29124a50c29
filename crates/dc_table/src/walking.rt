//! The steps of a walk without the lock. None waits. Each is the event of its name.

ghost use Rattle.std.specs.Prelude.{◌≡◌, ◌≢◌, ◌%◌, ◌/◌, ◌<◌, ◌≤◌, IfOk, IfErr, OnOk};
ghost use Rattle.dc_events.specs.Effects.{quit, noted, read, pivoted, checked, faulted};
ghost use Rattle.dc_events.specs.Views.Fault.{Busy};
ghost use Rattle.dc_plain.specs.Requests.{request_of};
ghost use Rattle.dc_table.specs.Holders.{table_of};
ghost use Rattle.dc_table.specs.Passes.{known, view, Fits, IsIdle, IsWalker, IsWalkerAt, StaysOut};
ghost use Rattle.dc_table.specs.Walking.{started, FindsOther, IsFresh, IsTrueThen, CanNote, CanRead, CanCheck, CountsAt};

use crate::CLOCK;
use crate::holder::Reader;
use crate::plays::{Asked, Check, Learn, Note, Pivot, Read};
use crate::shared::Shared;
use crate::table::Pass;
use dc_events::events_keep_the_rule;
use dc_names::BUCKET_ROWS;
use dc_plain::Call;
use std::marker::Brand;

impl Reader<'_> {
    // A count is loaded before any other word of its row, and again after the pivot; the order of the
    // steps is the walk's own.

    /// Notes the count of a row, if it is even: `first` begins the walk of the call. An odd count is
    /// an `Err`, and isn't noted.
    pub fn note(&self, pass: &mut Pass, call: &Call<'_>, row: u64, first: bool) -> Result<u64, u64>
        requires can { IsWalkerAt (table_of self.now) pass.old row
            × CanNote first (view pass.old) (request_of call.now) }
        ensures same { StaysOut pass.old pass.new }
        ensures noted { IfOk result (λ n.
            (n % 2 ≡ 0) × (view pass.new ≡ noted (started first pass.old call.now) row n)) }
        ensures odd { IfErr result (λ n.
            view pass.new ≡ faulted (started first pass.old call.now) (Busy row)) }
    {
        let found = self.note_as::<Brand>(pass, call, row, first);
        if found % 2 == 0 {
            Ok(found)
        } else {
            Err(found)
        }
    }

    fn note_as<C: Asked>(&self, pass: &mut Pass, call: &Call<'_>, row: u64, first: bool) -> u64
        requires asked { (C.call ≡ request_of call.now) × (C.about ≡ row) × (C.first ≡ first) }
        requires can { IsWalkerAt (table_of self.now) pass.old row
            × CanNote first (view pass.old) (request_of call.now) }
        ensures same { StaysOut pass.old pass.new }
        ensures even { result % 2 ≡ 0 → view pass.new
            ≡ noted (started first pass.old call.now) row result }
        ensures odd { result % 2 ≢ 0 → view pass.new
            ≡ faulted (started first pass.old call.now) (Busy row) }
    {
        events_keep_the_rule();
        let count = self.shared.word_of(row, 0);
        self.shared.table.shared.load::<Note<C>>(pass, count)
    }

    /// Reads the next word of the row that was noted last.
    pub fn read_word(&self, pass: &mut Pass, row: u64, word: u64) -> u64
        requires can { IsWalkerAt (table_of self.now) pass.old row × CanRead (view pass.old) row word }
        ensures same { StaysOut pass.old pass.new }
        ensures view { view pass.new ≡ read (view pass.old) result }
    {
        events_keep_the_rule();
        let place = self.shared.word_of(row, word);
        self.shared.table.shared.load::<Read>(pass, place)
    }

    /// Loads the clock: the point at which the call takes effect, if all that was noted stands. The pass
    /// then knows, for the proof, the history of the tree up to there.
    pub fn pivot(&self, pass: &mut Pass, call: &Call<'_>, first: bool) -> u64
        requires can { IsWalker (table_of self.now) pass.old
            × IsFresh first (view pass.old) (request_of call.now) }
        ensures same { StaysOut pass.old pass.new }
        ensures view { view pass.new ≡ pivoted (started first pass.old call.now) result }
        ensures later { (view pass.old).book.seen ≤ result }
        ensures counts { CountsAt (known pass.new) result }
    {
        self.pivot_as::<Brand>(pass, call, first)
    }

    fn pivot_as<C: Asked>(&self, pass: &mut Pass, call: &Call<'_>, first: bool) -> u64
        requires asked { (C.call ≡ request_of call.now) × (C.first ≡ first) }
        requires can { IsWalker (table_of self.now) pass.old
            × IsFresh first (view pass.old) (request_of call.now) }
        ensures same { StaysOut pass.old pass.new }
        ensures view { view pass.new ≡ pivoted (started first pass.old call.now) result }
        ensures later { (view pass.old).book.seen ≤ result }
        ensures counts { CountsAt (known pass.new) result }
    {
        events_keep_the_rule();
        // For the proof: that the table has a clock.
        let _words = self.shared.table.word_count();
        self.shared.table.shared.load::<Pivot<C>>(pass, CLOCK)
    }

    /// Whether the row of note `i`, the first being 0, still has the count that was noted: then what it
    /// told was true at the pivot. An `Err` has the counts noted and found. If the notes that were checked
    /// answer the call, it is recorded.
    pub fn check(&self, pass: &mut Pass, i: u64, row: u64, noted: u64) -> Result<(), (u64, u64)>
        requires can { IsWalkerAt (table_of self.now) pass.old row
            × CanCheck (view pass.old) i row noted }
        ensures same { StaysOut pass.old pass.new }
        ensures checked { OnOk result (view pass.new ≡ checked (view pass.old) i) }
        ensures changed { IfErr result (FindsOther (view pass.old) (view pass.new) row noted) }
        ensures stood { OnOk result (IsTrueThen (known pass.old) i) }
        ensures pivots { (known pass.new).pivots ≡ (known pass.old).pivots }
    {
        let found = self.check_as::<Brand>(pass, i, row, noted);
        if found == noted {
            Ok(())
        } else {
            Err((noted, found))
        }
    }

    fn check_as<C: Asked>(&self, pass: &mut Pass, i: u64, row: u64, noted: u64) -> u64
        requires asked { C.about ≡ i }
        requires can { IsWalkerAt (table_of self.now) pass.old row
            × CanCheck (view pass.old) i row noted }
        ensures same { StaysOut pass.old pass.new }
        ensures same_count { result ≡ noted → view pass.new ≡ checked (view pass.old) i }
        ensures other_count { result ≢ noted
            → FindsOther (view pass.old) (view pass.new) row noted (noted, result) }
        ensures stood { result ≡ noted → IsTrueThen (known pass.old) i }
        ensures pivots { (known pass.new).pivots ≡ (known pass.old).pivots }
    {
        events_keep_the_rule();
        let count = self.shared.word_of(row, 0);
        self.shared.table.shared.load::<Check<C>>(pass, count)
    }
}

impl Reader<'_> {
    /// How many rows the table has.
    pub fn rows(&self) -> u64
        ensures { result ≡ (table_of self.now).limits.rows }
    {
        self.shared.rows()
    }

    /// How many buckets of four rows the table has.
    pub fn buckets(&self) -> u64
        ensures { result ≡ (table_of self.now).limits.rows / BUCKET_ROWS }
    {
        self.shared.buckets()
    }
}

impl Shared {
    /// The table for walks without the lock.
    pub fn reader(&self) -> Reader<'_>
        ensures { table_of result ≡ self.now }
    {
        Reader { shared: self }
    }

    /// Loads the clock, which the pass has then seen. A walk that went on is given up.
    pub fn learn(&self, pass: &mut Pass) -> u64
        requires pass { Fits self.now pass.old × IsIdle pass.old }
        ensures same { StaysOut pass.old pass.new }
        ensures view { view pass.new ≡ pivoted (quit (view pass.old)) result }
        ensures later { (view pass.old).book.seen ≤ result }
    {
        events_keep_the_rule();
        // For the proof: that the table has a clock.
        let _words = self.table.word_count();
        self.table.shared.load::<Learn>(pass, CLOCK)
    }
}
