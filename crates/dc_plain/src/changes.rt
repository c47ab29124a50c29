//! The changes of one name: each test in its order, and then what is to be done.

ghost use Rattle.std.specs.Prelude.{IfOk};
ghost use Rattle.dc_plain.specs.Operations.{link, symlink, unlink, rmdir};
ghost use Rattle.dc_plain.specs.Planned.{link_from, made_in, FindsPlan};
ghost use Rattle.dc_plain.specs.Plans.{planned, HasSpotsIfChange};
ghost use Rattle.dc_plain.specs.Failures.{Finds};

use crate::failure::Failure;
use crate::place::path_of;
use crate::plan::{Change, New, Plan};
use crate::{MOST_NAMES, PlainTree, Where, is_directory, present, refuse};
use dc_names::{Name, Refusal};
use std::alloc::Global;

impl PlainTree {
    /// A new inode with its entry.
    pub(crate) fn make<'c>(
        &self,
        alloc: Global,
        base: u64,
        path: &'c [u8],
        may_end_in_slash: bool,
        new: New<'c>,
    ) -> Result<Plan<'c>, Failure>
        ensures found { Finds result (planned self.now.tree)
            (made_in self.now base path.now may_end_in_slash new.entry) }
        ensures spots { IfOk result (HasSpotsIfChange self.now.tree) }
    {
        let at = self.where_on(alloc, base, path)?;
        let name = at.last.name_or(Refusal::Exists)?;
        refuse(self.entry(at.dir, name.bytes()).is_some(), Refusal::Exists)?;
        refuse(at.slash && !may_end_in_slash, Refusal::NotFound)?;
        refuse(self.is_full(), Refusal::NoSpace)?;
        Ok(Plan::Change(Change::Make(at.spot(name), new)))
    }

    /// A new link, whose text has to have a path.
    pub(crate) fn symlink<'c>(
        &self,
        alloc: Global,
        base: u64,
        text: &'c [u8],
        path: &'c [u8],
    ) -> Result<Plan<'c>, Failure>
        ensures found { Finds result (planned self.now.tree)
            (symlink self.now.limit self.now.tree base text.now path.now) }
        ensures spots { IfOk result (HasSpotsIfChange self.now.tree) }
    {
        let text = path_of(text)?;
        self.make(alloc, base, path, false, New::Link(text))
    }

    /// A file or a link gets a further name.
    pub(crate) fn link<'c>(
        &self,
        alloc: Global,
        base: u64,
        old: &'c [u8],
        new: &'c [u8],
    ) -> Result<Plan<'c>, Failure>
        ensures found { Finds result (planned self.now.tree)
            (link self.now.tree base old.now new.now) }
        ensures spots { IfOk result (HasSpotsIfChange self.now.tree) }
    {
        let old = path_of(old)?;
        let new = path_of(new)?;
        let from = self.place_on(alloc, base, old)?;
        let to = self.place_on(alloc, base, new)?;
        let old = from.last.name_or(Refusal::NotPermitted)?;
        let new = to.last.name_or(Refusal::Exists)?;
        self.link_at(from, old, to, new)
    }

    /// The further name once both names are known.
    fn link_at<'c>(
        &self,
        from: Where<'c>,
        old: Name<'c>,
        to: Where<'c>,
        new: Name<'c>,
    ) -> Result<Plan<'c>, Failure>
        ensures found { FindsPlan self.now.tree
            (link_from from.entry old.entry to.entry new.entry) result }
        ensures spots { IfOk result (HasSpotsIfChange self.now.tree) }
    {
        let inode = present(self.entry(from.dir, old.bytes()), Refusal::NotFound)?;
        refuse(is_directory(inode), Refusal::NotPermitted)?;
        refuse(from.slash, Refusal::NotDirectory)?;
        refuse(self.entry(to.dir, new.bytes()).is_some(), Refusal::Exists)?;
        refuse(to.slash, Refusal::NotFound)?;
        refuse(MOST_NAMES <= self.names_of(inode.0), Refusal::TooManyNames)?;
        Ok(Plan::Change(Change::Link(to.spot(new), inode.0)))
    }

    /// A name of a file or of a link goes.
    pub(crate) fn unlink<'c>(
        &self,
        alloc: Global,
        base: u64,
        path: &'c [u8],
    ) -> Result<Plan<'c>, Failure>
        ensures found { Finds result (planned self.now.tree) (unlink self.now.tree base path.now) }
        ensures spots { IfOk result (HasSpotsIfChange self.now.tree) }
    {
        let at = self.where_on(alloc, base, path)?;
        let name = at.last.name_or(Refusal::NotPermitted)?;
        let inode = present(self.entry(at.dir, name.bytes()), Refusal::NotFound)?;
        refuse(is_directory(inode), Refusal::NotPermitted)?;
        refuse(at.slash, Refusal::NotDirectory)?;
        Ok(Plan::Change(Change::Drop(at.spot(name), inode.0)))
    }

    /// An empty directory goes.
    pub(crate) fn rmdir<'c>(
        &self,
        alloc: Global,
        base: u64,
        path: &'c [u8],
    ) -> Result<Plan<'c>, Failure>
        ensures found { Finds result (planned self.now.tree) (rmdir self.now.tree base path.now) }
        ensures spots { IfOk result (HasSpotsIfChange self.now.tree) }
    {
        let at = self.where_on(alloc, base, path)?;
        let name = at
            .last
            .name_or_each(Refusal::Busy, Refusal::Invalid, Refusal::NotEmpty)?;
        let inode = present(self.entry(at.dir, name.bytes()), Refusal::NotFound)?;
        refuse(!is_directory(inode), Refusal::NotDirectory)?;
        refuse(!self.is_empty(inode.0), Refusal::NotEmpty)?;
        Ok(Plan::Change(Change::Drop(at.spot(name), inode.0)))
    }
}
