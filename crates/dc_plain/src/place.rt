//! Where a path leads, and where its last part is to be looked up.

ghost use Rattle.std.specs.Prelude.{◌≡◌, Some, IfOk};
ghost use Rattle.dc_names.specs.Paths.{path_in};
ghost use Rattle.dc_plain.specs.Ends.{front_on};
ghost use Rattle.dc_plain.specs.Places.{start};
ghost use Rattle.dc_plain.specs.Spots.{where_shown};
ghost use Rattle.dc_plain.specs.Refusals.{walk_on, path_or_fault, ended, place_on, where_on};
ghost use Rattle.dc_plain.specs.Walks.{walked_shown};
ghost use Rattle.dc_plain.specs.Failures.{Finds};
ghost use Rattle.dc_plain.specs.Trees.{told_of};

use crate::failure::Failure;
use crate::resolve::{Walked, parts_in, resolve, settled};
use crate::told::Told;
use crate::{Follow, Label, PlainTree, ROOT, Target, Where};
use dc_names::{Kind, Last, PathText, Refusal, parse};
use std::alloc::Global;

/// The path that the bytes are, or the refusal of their first fault.
pub(crate) fn path_of(path: &[u8]) -> Result<PathText<'_>, Failure>
    ensures found { Finds result (λ found. path_in found.bytes.now) (path_or_fault path.now) }
    ensures bytes { IfOk result (λ found. found.bytes.now ≡ path.now) }
{
    Ok(parse(path)?)
}

/// Where a path begins: `None` if that isn't told, `Some(None)` if no such directory is.
pub(crate) fn start_of<T: Told>(told: &T, base: u64, path: PathText) -> Option<Option<Target>>
    ensures { result ≡ start (T.teller told.now) base (path_in path.entry.bytes.now) }
{
    if path.is_absolute() || base == 1 {
        return Some(Some(ROOT));
    }
    match told.leads(base, Label::DotDot)? {
        Some(_) => Some(Some((base, Kind::Dir))),
        None => Some(None),
    }
}

impl PlainTree {
    /// Where a path begins.
    fn start(&self, base: u64, path: PathText) -> Option<Target>
        ensures { Some result ≡ start (told_of self.now.tree) base (path_in path.entry.bytes.now) }
    {
        start_of(self, base, path)?
    }

    /// Where a path leads.
    pub(crate) fn walk(
        &self,
        alloc: Global,
        base: u64,
        path: &[u8],
        follow: Follow,
    ) -> Result<Target, Failure>
        ensures { Finds result (λ target. target) (walk_on self.now.tree base path.now follow) }
    {
        let path = path_of(path)?;
        let Some(start) = self.start(base, path) else {
            return Err(Failure::Refused(Refusal::NotFound));
        };
        let parts = parts_in(alloc, path)?;
        let walked = resolve(alloc, self, start, parts, path.has_end_slash(), follow)?;
        target_of(settled(walked))
    }

    /// Where all parts of a path but the last lead.
    fn front<'a>(&'a self, alloc: Global, base: u64, path: PathText<'a>) -> Result<Target, Failure>
        ensures { Finds result (λ target. target)
            (front_on self.now.tree base path.entry.bytes.now) }
    {
        let mut front = parts_in(alloc, path)?;
        let _last = front.pop();
        let Some(start) = self.start(base, path) else {
            return Err(Failure::Refused(Refusal::NotFound));
        };
        let walked = resolve(alloc, self, start, front, false, Follow::Dir)?;
        target_of(settled(walked))
    }

    /// The directory and the last part of a path.
    pub(crate) fn place_on<'p>(
        &self,
        alloc: Global,
        base: u64,
        path: PathText<'p>,
    ) -> Result<Where<'p>, Failure>
        ensures { Finds result where_shown
            (place_on self.now.tree base (path_in path.entry.bytes.now)) }
    {
        let mut all = parts_in(alloc, path)?;
        let Some(last) = all.pop() else {
            return Ok(Where {
                dir: 1,
                last: Last::Root,
                slash: false,
            });
        };
        let (dir, _) = self.front(alloc, base, path)?;
        Ok(Where {
            dir,
            last: last.into(),
            slash: path.has_end_slash(),
        })
    }

    /// The directory and the last part of the path that the bytes are.
    pub(crate) fn where_on<'p>(
        &self,
        alloc: Global,
        base: u64,
        path: &'p [u8],
    ) -> Result<Where<'p>, Failure>
        ensures { Finds result where_shown (where_on self.now.tree base path.now) }
    {
        self.place_on(alloc, base, path_of(path)?)
    }
}

/// The target that a walk found, or its refusal.
fn target_of(walked: Walked) -> Result<Target, Failure>
    ensures { Finds result (λ target. target) (ended (walked_shown walked)) }
{
    match walked {
        Walked::Found(target) => Ok(target),
        Walked::Refused(refusal) => Err(Failure::Refused(refusal)),
    }
}
