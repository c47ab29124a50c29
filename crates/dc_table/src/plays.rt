//! What each step tells its pass.

ghost use Rattle.dc_table.specs.Plays.{took, raised, put, committed_as, gave_as, answered_as};
ghost use Rattle.dc_table.specs.Walking.{noted_as, read_as, pivoted_as, learnt_as, checked_as, compared_as};

use crate::sheet::Sheet;
use crate::table::Guarded;
use atomic_table::{Join, Play, Split};
use std::marker::{Brand, PhantomData};

/// What a step is for, which only the proof knows.
pub trait Asked {
    ghost use Rattle.std.specs.Prelude.{ℕ, Bool};
    ghost use Rattle.dc_plain.specs.Requests.{Request};

    ghost call: { Request };

    // The row that is noted, or the place of the note that is checked.
    ghost about: { ℕ };

    // Whether the step begins the call's walk.
    ghost first: { Bool };
}

impl Asked for Brand {
    ghost use Rattle.std.specs.Prelude.{false};
    ghost use Rattle.dc_events.specs.Walks.{no_walk};

    ghost call = { no_walk.call };

    ghost about = { 0 };

    ghost first = { false };
}

/// The lock is tried.
pub struct Take;

impl Play<Option<Box<Guarded>>, Sheet> for Take {
    ghost then = { took };
}

/// The count of a row grows by one.
pub struct Raise;

impl Play<Option<Box<Guarded>>, Sheet> for Raise {
    ghost then = { raised };
}

/// A word of an odd row is written.
pub struct Put;

impl Play<Option<Box<Guarded>>, Sheet> for Put {
    ghost then = { put };
}

/// A call alters the tree.
pub struct Commit<C> {
    of: PhantomData<C>,
}

impl<C: Asked> Play<Option<Box<Guarded>>, Sheet> for Commit<C> {
    ghost then = { committed_as C.call };
}

/// The lock goes back.
pub struct Give;

impl Play<Option<Box<Guarded>>, Sheet> for Give {
    ghost then = { gave_as };
}

/// The lock goes back, and a call that alters nothing is answered.
pub struct Answer<C> {
    of: PhantomData<C>,
}

impl<C: Asked> Play<Option<Box<Guarded>>, Sheet> for Answer<C> {
    ghost then = { answered_as C.call };
}

/// The count of a row is noted, if it is even.
pub struct Note<C> {
    of: PhantomData<C>,
}

impl<C: Asked> Play<Option<Box<Guarded>>, Sheet> for Note<C> {
    ghost then = { noted_as C.call C.about C.first };
}

/// A word of the row that was noted last is read.
pub struct Read;

impl Play<Option<Box<Guarded>>, Sheet> for Read {
    ghost then = { read_as };
}

/// The clock is loaded, for the point of a walk.
pub struct Pivot<C> {
    of: PhantomData<C>,
}

impl<C: Asked> Play<Option<Box<Guarded>>, Sheet> for Pivot<C> {
    ghost then = { pivoted_as C.call C.first };
}

/// The clock is loaded, and a walk is given up.
pub struct Learn;

impl Play<Option<Box<Guarded>>, Sheet> for Learn {
    ghost then = { learnt_as };
}

/// A note is checked.
pub struct Check<C> {
    of: PhantomData<C>,
}

impl<C: Asked> Play<Option<Box<Guarded>>, Sheet> for Check<C> {
    ghost then = { checked_as C.about };
}

/// The holder compares the count of a row with that of a note.
pub struct Compare<C> {
    of: PhantomData<C>,
}

impl<C: Asked> Play<Option<Box<Guarded>>, Sheet> for Compare<C> {
    ghost then = { compared_as C.about };
}

/// A pass is cut in two, or two are put together.
pub struct Halves;

impl Split<Sheet> for Halves {
    ghost use Rattle.dc_table.specs.Kept.{sheet_of, known_of};
    ghost use Rattle.dc_table.specs.Shares.{kept_half, new_half};

    ghost left = { λ s. sheet_of (kept_half (known_of s)) };

    ghost right = { λ s. sheet_of (new_half (known_of s)) };
}

impl Join<Sheet> for Halves {
    ghost use Rattle.dc_table.specs.Kept.{sheet_of, known_of};
    ghost use Rattle.dc_table.specs.Shares.{both, spent};

    ghost both = { λ s t. sheet_of (both (known_of s) (known_of t)) };

    ghost spent = { sheet_of spent };
}
