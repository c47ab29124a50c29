//! What a call is found to answer or to change.

ghost use Rattle.std.specs.Prelude.{IfOk};
ghost use Rattle.dc_plain.specs.Operations.{change_of};
ghost use Rattle.dc_plain.specs.Plans.{planned, HasSpotsIfChange};
ghost use Rattle.dc_plain.specs.Requests.{request_of};
ghost use Rattle.dc_plain.specs.Failures.{Finds};

use crate::failure::Failure;
use crate::{Call, PlainTree, Reply, Spot, Target};
use dc_names::PathText;
use std::alloc::Global;

/// An inode that is to be made.
#[derive(Clone, Copy)]
pub(crate) enum New<'a> {
    Directory,
    File,
    Link(PathText<'a>),
}

/// What is to become of the tree.
#[derive(Clone, Copy)]
pub(crate) enum Change<'a> {
    /// A new inode, with its name.
    Make(Spot<'a>, New<'a>),
    /// A further name of an inode.
    Link(Spot<'a>, u64),
    /// A name of an inode goes, and with the last one the inode.
    Drop(Spot<'a>, u64),
    /// An inode gets another name in place of one of its names, and of what stands there.
    Move {
        moved: Target,
        from: Spot<'a>,
        to: Spot<'a>,
        there: Option<Target>,
    },
    /// Two inodes get each other's names.
    Swap {
        moved: Target,
        from: Spot<'a>,
        to: Spot<'a>,
        there: Target,
    },
}

/// What a call that isn't refused answers, or changes.
#[derive(Drop)]
pub(crate) enum Plan<'a> {
    Answer(Reply),
    Change(Change<'a>),
}

impl PlainTree {
    /// What a call answers or changes.
    pub(crate) fn plan<'c>(&self, alloc: Global, call: &Call<'c>) -> Result<Plan<'c>, Failure>
        ensures found { Finds result (planned self.now.tree)
            (change_of self.now.limit self.now.tree (request_of call.now)) }
        ensures spots { IfOk result (HasSpotsIfChange self.now.tree) }
    {
        match *call {
            Call::Look { base, path, follow } => self.look(alloc, base, path, follow),
            Call::Readlink { base, path } => self.readlink(alloc, base, path),
            Call::Stat { base, path } => self.stat(alloc, base, path),
            Call::List { base, path } => self.list(alloc, base, path),
            Call::Mkdir { base, path } => self.make(alloc, base, path, true, New::Directory),
            Call::Create { base, path } => self.make(alloc, base, path, false, New::File),
            Call::Link { base, old, new } => self.link(alloc, base, old, new),
            Call::Symlink { base, text, path } => self.symlink(alloc, base, text, path),
            Call::Unlink { base, path } => self.unlink(alloc, base, path),
            Call::Rmdir { base, path } => self.rmdir(alloc, base, path),
            Call::Rename {
                base,
                old,
                new,
                flags,
            } => self.rename(alloc, base, old, new, flags),
        }
    }
}
