//! What is measured, and over what: the kinds of work, their sizes, and the tasks of the command line.

use std::time::Duration;

/// What the threads of a run of look-ups do.
#[derive(Clone, Copy)]
pub enum Work {
    /// Files that are there.
    Read,
    /// Files that are there, each by a text that is tested first, as in a call from C.
    Texts,
    /// Names that never stand, whose absence has rows.
    Absent,
    /// A rename of a file of the thread's own for each 19 look-ups.
    Mixed,
    /// A change of a name of the thread's own after each look-up.
    Churn,
    /// Names that never stand, four times as many as there are rows.
    Miss,
    /// Files by paths whose first name is a symbolic link.
    Links,
    /// No look-up: a file of the thread's own is made and unlinked.
    Change,
}

impl Work {
    /// All kinds that look up, in the order of the table.
    pub const ALL: [Work; 7] = [
        Work::Read,
        Work::Texts,
        Work::Absent,
        Work::Mixed,
        Work::Churn,
        Work::Miss,
        Work::Links,
    ];

    pub fn name(self) -> &'static str {
        match self {
            Work::Read => "read",
            Work::Texts => "texts",
            Work::Absent => "absent",
            Work::Mixed => "mixed",
            Work::Churn => "churn",
            Work::Miss => "miss",
            Work::Links => "links",
            Work::Change => "change",
        }
    }

    /// The kind of a name.
    pub fn of(name: &str) -> Work {
        match name {
            "texts" => Work::Texts,
            "absent" => Work::Absent,
            "mixed" => Work::Mixed,
            "churn" => Work::Churn,
            "miss" => Work::Miss,
            "links" => Work::Links,
            _ => Work::Read,
        }
    }

    /// How many look-ups go before each change. None for work that changes nothing.
    pub fn looks_to_a_change(self) -> Option<usize> {
        match self {
            Work::Mixed => Some(19),
            Work::Churn => Some(1),
            Work::Change => Some(0),
            Work::Read | Work::Texts | Work::Absent | Work::Miss | Work::Links => None,
        }
    }
}

/// The races: what is renamed above the paths that are looked up.
#[derive(Clone, Copy)]
pub enum Sort {
    /// A directory gets another name and back, and a file stands below it in between.
    Rename,
    /// Two directories swap their names.
    Exchange,
}

impl Sort {
    pub fn name(self) -> &'static str {
        match self {
            Sort::Rename => "rename",
            Sort::Exchange => "exchange",
        }
    }
}

/// A run of look-ups.
#[derive(Clone, Copy)]
pub struct LookTask<'a> {
    pub threads: u64,
    pub time: Duration,
    pub shape: Shape,
    /// The file of the tree. None for one that is drawn.
    pub tree: Option<&'a str>,
    pub json: bool,
}

/// What a look-up does if the rows don't answer.
#[derive(Clone, Copy)]
pub enum Miss {
    /// It takes the lock for each name of its path, as `look` does.
    NameByName,
    /// It takes the lock once, as `resolve` does.
    OneHold,
}

/// A tree that is drawn: how many names its paths have, how many files are asked, and over how many
/// buckets its names are to fit; and what its look-ups do if the rows don't answer.
#[derive(Clone, Copy)]
pub struct Shape {
    pub work: Work,
    pub depth: u64,
    pub hot: u64,
    pub buckets: u64,
    pub miss: Miss,
}

/// A run of changes.
#[derive(Clone, Copy)]
pub struct ChangeTask {
    pub threads: u64,
    pub time: Duration,
    pub json: bool,
}

/// Calls beside 1 to this many threads that hold the lock for about this long at a time.
#[derive(Clone, Copy)]
pub struct WaitTask {
    pub hogs: u64,
    pub time: Duration,
    pub hold: Duration,
    pub json: bool,
}

/// Calls that take the lock.
#[derive(Clone, Copy)]
pub enum Taker {
    /// Nothing is done under the lock: a shrink of no row.
    Nothing,
    Make,
    Unlink,
    Rename,
    /// A look-up of a name that was never asked for, behind three others.
    Miss,
    Stat,
    /// Of a directory of 64 names.
    List,
}

impl Taker {
    /// All, in the order of the table.
    pub const ALL: [Taker; 7] = [
        Taker::Nothing,
        Taker::Make,
        Taker::Unlink,
        Taker::Rename,
        Taker::Miss,
        Taker::Stat,
        Taker::List,
    ];

    pub fn name(self) -> &'static str {
        match self {
            Taker::Nothing => "nothing",
            Taker::Make => "make",
            Taker::Unlink => "unlink",
            Taker::Rename => "rename",
            Taker::Miss => "miss",
            Taker::Stat => "stat",
            Taker::List => "list",
        }
    }

    /// The changes of which it is one. None if it changes nothing.
    pub fn changes(self) -> Option<Work> {
        match self {
            Taker::Make | Taker::Unlink => Some(Work::Change),
            Taker::Rename => Some(Work::Mixed),
            Taker::Nothing | Taker::Miss | Taker::Stat | Taker::List => None,
        }
    }

    /// Whether a change is one of these, if it is the first of a file's or not.
    pub fn is_it(self, is_first: bool) -> bool {
        match self {
            Taker::Make => is_first,
            Taker::Unlink => !is_first,
            _ => true,
        }
    }
}

/// Calls by 1 to this many threads, whose holds of the lock are timed.
#[derive(Clone, Copy)]
pub struct HoldTask {
    pub threads: u64,
    pub time: Duration,
    pub json: bool,
}

/// A race of this many look-ups by this many threads.
#[derive(Clone, Copy)]
pub struct RaceTask {
    pub sort: Sort,
    pub depth: u64,
    pub looks: u64,
    pub threads: u64,
    pub style: Style,
}

/// How a race is reported.
#[derive(Clone, Copy)]
pub enum Style {
    Table,
    Json,
    /// The number of wrong answers alone, which is the same whatever the threads do.
    WrongOnly,
}

/// What the words ask for.
#[derive(Clone, Copy)]
pub enum Task<'a> {
    /// Everything, briefly.
    All,
    Look(LookTask<'a>),
    Change(ChangeTask),
    Waits(WaitTask),
    Holds(HoldTask),
    Race(RaceTask),
    /// The lines of a tree that is drawn.
    Tree(Shape),
}
