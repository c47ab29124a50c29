//! What the checker is given, what it notes of it, and what it says.

use dc_plain::{OwnCall, Reply};

/// What a session called and was answered, and where in the run.
#[derive(Debug, Drop, PartialEq, Eq)]
pub struct Stamp {
    /// Who called.
    pub session: u64,
    /// The call.
    pub call: OwnCall,
    /// Its answer.
    pub reply: Reply,
    /// How many changes came before it.
    pub at: u64,
}

/// What becomes of a list of stamps. Lines are counted from 1: the n-th stamp stands in line n.
#[derive(Clone, Copy, Debug, PartialEq, Eq)]
pub enum Verdict {
    /// One tree answers all of them, in an order that keeps each session's.
    Legal,
    /// The stamp of this line has another reply than the tree at its point gives.
    BadReply(u64),
    /// The stamp of this line can't stand at its point: its session was further, another call altered
    /// the tree there, or no call brought the tree so far.
    BadOrder(u64),
}

/// What becomes of a list of stamps whose calls were made phase by phase. Lines are counted as those of
/// a `Verdict`.
#[derive(Clone, Copy, Debug, PartialEq, Eq)]
pub enum PhasedVerdict {
    /// One tree answers all of them, in an order that keeps each session's, and no call took effect
    /// before one of an earlier phase.
    Legal,
    /// As `Verdict::BadReply`.
    BadReply(u64),
    /// As `Verdict::BadOrder`.
    BadOrder(u64),
    /// One tree answers all of them, but the call of this line took effect before one of an earlier
    /// phase.
    BadPhase(u64),
}

/// A stamp with its line and its phase.
#[derive(Clone, Copy)]
pub struct Numbered<'a> {
    /// Counted from 1.
    pub line: u64,
    pub phase: u64,
    pub stamp: &'a Stamp,
}

/// Where the call of a line took effect.
#[derive(Clone, Copy)]
pub struct Mark {
    pub line: u64,
    pub phase: u64,
    pub at: u64,
    /// Whether it altered the tree: a call that comes after it then has a higher point.
    pub altered: bool,
}

/// What the judge makes of stamps.
#[derive(Drop)]
pub enum Judged {
    /// They are legal, and their calls took effect here.
    Legal(Vec<Mark>),
    /// They are not.
    Other(Verdict),
}

impl PhasedVerdict {
    ghost use Rattle.std.specs.Prelude.{◌≡◌, ◌↔◌};

    /// A verdict on stamps, as one on stamps with phases.
    pub fn of(verdict: Verdict) -> PhasedVerdict
        ensures { (result ≡ PhasedVerdict.Legal) ↔ (verdict ≡ Verdict.Legal) }
    {
        match verdict {
            Verdict::Legal => PhasedVerdict::Legal,
            Verdict::BadReply(line) => PhasedVerdict::BadReply(line),
            Verdict::BadOrder(line) => PhasedVerdict::BadOrder(line),
        }
    }
}
