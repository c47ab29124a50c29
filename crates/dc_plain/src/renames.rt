//! The change of two names.

ghost use Rattle.std.specs.Prelude.{◌≡◌, length, true, Some, IfOk};
ghost use Rattle.dc_plain.specs.Operations.{is_beneath, rename, replaceable, same_inode};
ghost use Rattle.dc_plain.specs.Planned.{move_from, rename_from, swap_from, FindsPlan};
ghost use Rattle.dc_plain.specs.Spots.{spot_at};
ghost use Rattle.dc_plain.specs.Trees.{entry_number};
ghost use Rattle.dc_plain.specs.Plans.{planned, HasSpotsIfChange};
ghost use Rattle.dc_plain.specs.Failures.{Finds};

use crate::failure::Failure;
use crate::place::path_of;
use crate::plan::{Change, Plan};
use crate::{Flags, PlainTree, Reply, Target, Where, is_directory, present, refuse};
use dc_names::{Name, Refusal};
use std::alloc::Global;

impl PlainTree {
    /// An inode gets another name in place of one of its names, or swaps names with another.
    pub(crate) fn rename<'c>(
        &self,
        alloc: Global,
        base: u64,
        old: &'c [u8],
        new: &'c [u8],
        flags: Flags,
    ) -> Result<Plan<'c>, Failure>
        ensures found { Finds result (planned self.now.tree)
            (rename self.now.tree base old.now new.now flags) }
        ensures spots { IfOk result (HasSpotsIfChange self.now.tree) }
    {
        let both = flags.no_replace && flags.exchange;
        refuse(both, Refusal::Invalid)?;
        let old = path_of(old)?;
        let new = path_of(new)?;
        let from = self.place_on(alloc, base, old)?;
        let to = self.place_on(alloc, base, new)?;
        let old = from
            .last
            .name_or_each(Refusal::Busy, Refusal::Invalid, Refusal::Invalid)?;
        let new = to
            .last
            .name_or_each(Refusal::Busy, Refusal::Invalid, Refusal::Invalid)?;
        self.rename_at(from, old, to, new, flags)
    }

    /// The rename once both names are known.
    fn rename_at<'c>(
        &self,
        from: Where<'c>,
        old: Name<'c>,
        to: Where<'c>,
        new: Name<'c>,
        flags: Flags,
    ) -> Result<Plan<'c>, Failure>
        ensures found { FindsPlan self.now.tree
            (rename_from from.entry old.entry to.entry new.entry flags) result }
        ensures spots { IfOk result (HasSpotsIfChange self.now.tree) }
    {
        let moved = present(self.entry(from.dir, old.bytes()), Refusal::NotFound)?;
        if flags.exchange {
            self.swap_names(from, old, to, new, moved)
        } else {
            self.move_name(from, old, to, new, moved, flags.no_replace)
        }
    }

    /// What stands at the old name gets the new one, in place of what stands there.
    fn move_name<'c>(
        &self,
        from: Where<'c>,
        old: Name<'c>,
        to: Where<'c>,
        new: Name<'c>,
        moved: Target,
        no_replace: bool,
    ) -> Result<Plan<'c>, Failure>
        ensures found { FindsPlan self.now.tree
            (move_from from.entry old.entry to.entry new.entry moved no_replace) result }
        ensures spots { IfOk result (HasSpotsIfChange self.now.tree) }
    {
        refuse(
            !is_directory(moved) && (from.slash || to.slash),
            Refusal::NotDirectory,
        )?;
        let there = self.entry(to.dir, new.bytes());
        refuse(no_replace && there.is_some(), Refusal::Exists)?;
        if same_inode(moved, there) {
            return Ok(Plan::Answer(Reply::Unit));
        }
        let moves_beneath = is_directory(moved) && self.is_beneath(to.dir, moved.0);
        refuse(moves_beneath, Refusal::Invalid)?;
        self.replaceable(moved, there)?;
        Ok(Plan::Change(Change::Move {
            moved,
            from: from.spot(old),
            to: to.spot(new),
            there,
        }))
    }

    /// What stands at the two names swaps them.
    fn swap_names<'c>(
        &self,
        from: Where<'c>,
        old: Name<'c>,
        to: Where<'c>,
        new: Name<'c>,
        moved: Target,
    ) -> Result<Plan<'c>, Failure>
        requires { entry_number self.now.tree (spot_at from.dir old.bytes.now) ≡ Some moved.0 }
        ensures found { FindsPlan self.now.tree
            (swap_from from.entry old.entry to.entry new.entry moved) result }
        ensures spots { IfOk result (HasSpotsIfChange self.now.tree) }
    {
        let there = present(self.entry(to.dir, new.bytes()), Refusal::NotFound)?;
        refuse(!is_directory(moved) && from.slash, Refusal::NotDirectory)?;
        refuse(!is_directory(there) && to.slash, Refusal::NotDirectory)?;
        if moved.0 == there.0 {
            return Ok(Plan::Answer(Reply::Unit));
        }
        let moves_beneath = is_directory(moved) && self.is_beneath(to.dir, moved.0);
        refuse(moves_beneath, Refusal::Invalid)?;
        let comes_beneath = is_directory(there) && self.is_beneath(from.dir, there.0);
        refuse(comes_beneath, Refusal::Invalid)?;
        Ok(Plan::Change(Change::Swap {
            moved,
            from: from.spot(old),
            to: to.spot(new),
            there,
        }))
    }

    /// Whether going up from a directory one meets an inode, or doesn't come to the root. `dc_ops` has a copy
    /// of its own for stores, on purpose: a mistake in one of the two isn't one of both.
    #[tactic(auto, using(crate::proofs::Climbs::climbs))]
    fn is_beneath(&self, dir: u64, number: u64) -> bool
        ensures { result
            ≡ is_beneath (length self.now.tree.inodes) self.now.tree dir number }
    {
        let mut at = dir;
        let mut left = self.inodes.len();
        'climb: while left > 0 {
            if at == number {
                return true;
            }
            if at == 1 {
                return false;
            }
            let Some(up) = self.holder(at) else {
                return false;
            };
            at = up;
            left -= 1;
        }
        true
    }

    /// Tests what stands at the new name.
    fn replaceable(&self, moved: Target, there: Option<Target>) -> Result<(), Failure>
        ensures { Finds result (λ _. true) (replaceable self.now.tree moved there) }
    {
        let Some(there) = there else {
            return Ok(());
        };
        if !is_directory(moved) {
            refuse(is_directory(there), Refusal::IsDirectory)?;
            return Ok(());
        }
        refuse(!is_directory(there), Refusal::NotDirectory)?;
        refuse(!self.is_empty(there.0), Refusal::NotEmpty)?;
        Ok(())
    }
}

/// Whether both names lead to one inode.
fn same_inode(moved: Target, there: Option<Target>) -> bool
    ensures { result ≡ same_inode moved there }
{
    there.is_some_and(|there| moved.0 == there.0)
}
