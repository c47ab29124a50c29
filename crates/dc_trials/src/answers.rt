//! Changes from the root, and whether an answer is the one that is wanted.

ghost use Rattle.dc_cache.specs.Passes.{IsChange};

use dc_cache::{Call, ChangeFault, Flags, Kind, ROOT, Reply, Stamped};

pub fn mkdir(path: &[u8]) -> Call<'_>
    ensures { IsChange result }
{
    Call::Mkdir { base: ROOT, path }
}

pub fn create(path: &[u8]) -> Call<'_>
    ensures { IsChange result }
{
    Call::Create { base: ROOT, path }
}

pub fn symlink<'a>(text: &'a [u8], path: &'a [u8]) -> Call<'a>
    ensures { IsChange result }
{
    Call::Symlink {
        base: ROOT,
        text,
        path,
    }
}

pub fn unlink(path: &[u8]) -> Call<'_>
    ensures { IsChange result }
{
    Call::Unlink { base: ROOT, path }
}

pub fn rmdir(path: &[u8]) -> Call<'_>
    ensures { IsChange result }
{
    Call::Rmdir { base: ROOT, path }
}

pub fn link<'a>(old: &'a [u8], new: &'a [u8]) -> Call<'a>
    ensures { IsChange result }
{
    Call::Link {
        base: ROOT,
        old,
        new,
    }
}

pub fn rename<'a>(old: &'a [u8], new: &'a [u8]) -> Call<'a>
    ensures { IsChange result }
{
    Call::Rename {
        base: ROOT,
        old,
        new,
        flags: Flags::default(),
    }
}

/// A reply that is wanted, as a table of constants has it.
#[derive(Clone, Copy)]
pub enum Want<'a> {
    Found(u64, Kind),
    Done(u64),
    Unit,
    Text(&'a [u8]),
    Names(&'a [&'a [u8]]),
    Stat(u64, Kind, u64),
    Refused(u64),
}

impl Want<'_> {
    /// Whether a reply is this one.
    pub fn is(&self, reply: &Reply) -> bool {
        match (self, reply) {
            (Want::Found(number, kind), Reply::Found(found, other)) => {
                number == found && kind == other
            }
            (Want::Done(number), Reply::Done(made)) => number == made,
            (Want::Unit, Reply::Unit) => true,
            (Want::Text(text), Reply::Text(told)) => *text == told.as_slice(),
            (Want::Names(names), Reply::Names(told)) => are_names(names, told),
            (Want::Stat(number, kind, count), Reply::Stat(found, other, counted)) => {
                number == found && kind == other && count == counted
            }
            (Want::Refused(number), Reply::Refused(told)) => number == told,
            _ => false,
        }
    }
}

/// Whether these are the names that were listed.
fn are_names(names: &[&[u8]], told: &[Vec<u8>]) -> bool {
    for (at, name) in told.iter().enumerate() {
        match names.get(at) {
            Some(want) if name.as_slice() == *want => {}
            _ => return false,
        }
    }
    told.len() == names.len()
}

/// Whether an answer is this one.
pub fn is(stamped: &Stamped, want: Want<'_>, at: u64) -> bool {
    stamped.at == at && want.is(&stamped.reply)
}

/// Whether a change was answered so.
pub fn is_made(made: &Result<Stamped, ChangeFault>, want: Want<'_>, at: u64) -> bool {
    match made {
        Ok(stamped) => is(stamped, want, at),
        Err(_) => false,
    }
}
