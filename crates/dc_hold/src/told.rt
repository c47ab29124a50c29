//! What an answer of the cache is in numbers, for a program in C.

ghost use Rattle.std.specs.Prelude.{◌≡◌};
ghost use Rattle.dc_hold.specs.Numbers.{kind_number, why_number};
ghost use Rattle.dc_hold.specs.declared.status.Status.TheVariants as Status;
ghost use Rattle.dc_hold.specs.Tells.{again, inode, nothing, told_by, tells_change, tells_fast, tells_gone, tells_link, tells_read, tells_tried};

use crate::status::Status;
use dc_cache::{ChangeFault, Fast, FastLink, Kind, NoMemory, Reply, Stamped, Why};

/// What was found, as C sees it; what a call does not tell is 0.
#[repr(C)]
#[derive(Clone, Copy, Debug, PartialEq, Eq)]
pub struct Found {
    /// The number of the inode that was found or made.
    pub number: u64,
    /// How many names or entries it has; how many bytes a text, names or a path take; how many entries were
    /// written; how many directories a trail has. What it is, the call says.
    pub count: u64,
    /// The point: how many changes came before the answer.
    pub at: u64,
    /// Its kind: 1 a directory, 2 a file, 3 a link.
    pub kind: u32,
    /// Why the rows alone didn't answer.
    pub why: u32,
}

/// What a change took away, as C sees it; all 0 if no name went.
#[repr(C)]
#[derive(Clone, Copy, Debug, PartialEq, Eq)]
pub struct Gone {
    /// The number that the name led to.
    pub number: u64,
    /// The kind of that inode, as in `Found`.
    pub kind: u32,
    /// 1 if that was its last name.
    pub last: u32,
}

/// How a call ended, with what it found.
#[derive(Clone, Copy, Debug, PartialEq, Eq)]
pub struct Told {
    /// How it ended.
    pub status: Status,
    /// What it found.
    pub found: Found,
}

/// The number of a kind in C.
pub(crate) fn kind_number(kind: Kind) -> u32
    ensures { result ≡ kind_number kind }
{
    match kind {
        Kind::Dir => 1,
        Kind::File => 2,
        Kind::Link => 3,
    }
}

/// The number of a cause in C: 1 to 5.
fn why_number(why: &Why) -> u32
    ensures { result ≡ why_number why.now }
{
    match why {
        // A look-up by the rows alone asks for no memory. A row that wasn't filled is missing.
        Why::Miss(_) | Why::Memory => 1,
        Why::Busy(_) => 2,
        Why::Changed { .. } => 3,
        Why::Long => 4,
        Why::Link => 5,
    }
}

/// An end at which nothing is found.
pub(crate) fn nothing(status: Status) -> Told
    ensures { result ≡ record {
      status = status;
      found = record { number = 0; count = 0; at = 0; kind = 0; why = 0 };
    } }
{
    let found = Found {
        number: 0,
        count: 0,
        at: 0,
        kind: 0,
        why: 0,
    };
    Told { status, found }
}

/// Another pass had the lock.
pub(crate) fn busy() -> Told
    ensures { result ≡ nothing Status.Busy }
{
    nothing(Status::Busy)
}

/// An answer that names an inode.
pub(crate) fn inode(number: u64, kind: u32, count: u64, at: u64) -> Told
    ensures { result ≡ record {
      status = Status.Done;
      found = record { number = number; count = count; at = at; kind = kind; why = 0 };
    } }
{
    let found = Found {
        number,
        count,
        at,
        kind,
        why: 0,
    };
    Told {
        status: Status::Done,
        found,
    }
}

/// What an answer says. Of names it says no count.
pub(crate) fn told_stamped(stamped: &Stamped) -> Told
    ensures { result ≡ told_by stamped.now }
{
    let at = stamped.at;
    match &stamped.reply {
        Reply::Found(number, kind) => inode(*number, kind_number(*kind), 0, at),
        Reply::Stat(number, kind, count) => inode(*number, kind_number(*kind), *count, at),
        Reply::Done(number) => inode(*number, 0, 0, at),
        Reply::Text(text) => inode(0, 0, text.len() as u64, at),
        Reply::Unit | Reply::Names(_) => inode(0, 0, 0, at),
        Reply::Refused(number) => {
            let mut refused = inode(0, 0, 0, at);
            refused.status = Status::Refused(*number);
            refused
        }
    }
}

/// The rows alone don't answer.
pub(crate) fn told_again(why: &Why) -> Told
    ensures { result ≡ again why.now }
{
    let mut told = nothing(Status::Again);
    told.found.why = why_number(why);
    told
}

/// What a look-up by the rows alone says.
#[must_use]
pub fn told_fast(fast: &Fast) -> Told
    ensures { result ≡ tells_fast fast.now }
{
    match fast {
        Fast::Done(stamped) => told_stamped(stamped),
        Fast::Again(why) => told_again(why),
    }
}

/// What the rows alone say of a readlink.
#[must_use]
pub fn told_link(fast: &FastLink) -> Told
    ensures { result ≡ tells_link fast.now }
{
    match fast {
        FastLink::Refused(stamped) => told_stamped(stamped),
        FastLink::Link(stamped) => told_stamped(stamped),
        FastLink::Again(why) => told_again(why),
    }
}

/// What a try says.
#[must_use]
pub fn told_tried(tried: &Option<Stamped>) -> Told
    ensures { result ≡ tells_tried tried.now }
{
    match tried {
        Some(stamped) => told_stamped(stamped),
        None => busy(),
    }
}

/// What a try to read says.
#[must_use]
pub fn told_read(tried: &Option<Result<Stamped, NoMemory>>) -> Told
    ensures { result ≡ tells_read tried.now }
{
    match tried {
        Some(Ok(stamped)) => told_stamped(stamped),
        Some(Err(NoMemory)) => nothing(Status::NoMemory),
        None => busy(),
    }
}

/// What a try to change says.
#[must_use]
pub fn told_change(tried: &Option<Result<Stamped, ChangeFault>>) -> Told
    ensures { result ≡ tells_change tried.now }
{
    match tried {
        Some(Ok(stamped)) => told_stamped(stamped),
        Some(Err(fault)) => nothing(Status::of_change(*fault)),
        None => busy(),
    }
}

/// What a change took away.
#[must_use]
pub fn told_gone(gone: Option<dc_cache::Gone>) -> Gone
    ensures { result ≡ tells_gone gone }
{
    match gone {
        Some(gone) => Gone {
            number: gone.number,
            kind: kind_number(gone.kind),
            last: u32::from(gone.last),
        },
        None => Gone {
            number: 0,
            kind: 0,
            last: 0,
        },
    }
}
