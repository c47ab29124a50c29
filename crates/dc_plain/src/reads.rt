//! The calls that change nothing.

ghost use Rattle.std.specs.Prelude.{IfOk};
ghost use Rattle.dc_plain.specs.Operations.{left_alone};
ghost use Rattle.dc_plain.specs.Plans.{planned, HasSpotsIfChange};
ghost use Rattle.dc_plain.specs.Reads.{look, readlink, stat, list_names};
ghost use Rattle.dc_plain.specs.Failures.{Finds};

use crate::failure::Failure;
use crate::plan::Plan;
use crate::{Follow, PlainTree, Reply};
use dc_names::Refusal;
use std::alloc::Global;

impl PlainTree {
    /// Where a path leads.
    pub(crate) fn look<'c>(
        &self,
        alloc: Global,
        base: u64,
        path: &[u8],
        follow: Follow,
    ) -> Result<Plan<'c>, Failure>
        ensures found { let t = self.now.tree in Finds result (planned t)
            (left_alone t (look t base path.now follow)) }
        ensures spots { IfOk result (HasSpotsIfChange self.now.tree) }
    {
        let (number, kind) = self.walk(alloc, base, path, follow)?;
        Ok(Plan::Answer(Reply::Found(number, kind)))
    }

    /// The text of a link.
    pub(crate) fn readlink<'c>(
        &self,
        alloc: Global,
        base: u64,
        path: &[u8],
    ) -> Result<Plan<'c>, Failure>
        ensures found { let t = self.now.tree in Finds result (planned t)
            (left_alone t (readlink t base path.now)) }
        ensures spots { IfOk result (HasSpotsIfChange self.now.tree) }
    {
        let (number, _) = self.walk(alloc, base, path, Follow::No)?;
        let Some(text) = self.text(number) else {
            return Err(Failure::Refused(Refusal::Invalid));
        };
        Ok(Plan::Answer(Reply::Text(Vec::from_slice(alloc, text.bytes())?)))
    }

    /// Where a path leads, and how many names or entries that inode has.
    pub(crate) fn stat<'c>(
        &self,
        alloc: Global,
        base: u64,
        path: &[u8],
    ) -> Result<Plan<'c>, Failure>
        ensures found { let t = self.now.tree in Finds result (planned t)
            (left_alone t (stat t base path.now)) }
        ensures spots { IfOk result (HasSpotsIfChange self.now.tree) }
    {
        let target = self.walk(alloc, base, path, Follow::Yes)?;
        Ok(Plan::Answer(Reply::Stat(target.0, target.1, self.count_at(target))))
    }

    /// The names in a directory.
    pub(crate) fn list<'c>(
        &self,
        alloc: Global,
        base: u64,
        path: &[u8],
    ) -> Result<Plan<'c>, Failure>
        ensures found { let t = self.now.tree in Finds result (planned t)
            (left_alone t (list_names t base path.now)) }
        ensures spots { IfOk result (HasSpotsIfChange self.now.tree) }
    {
        let (dir, _) = self.walk(alloc, base, path, Follow::Dir)?;
        Ok(Plan::Answer(Reply::Names(self.names_in(alloc, dir)?)))
    }
}
