//! Changes carried out on the rows.

ghost use Rattle.std.specs.Prelude.{◌≡◌, ◌≤◌, IfOk, OnOk, OnErr, vec_len, vec_capacity};
ghost use Rattle.dc_plain.specs.Plain.{node_shown};
ghost use Rattle.dc_plain.specs.Planned.{tree_by};
ghost use Rattle.dc_plain.specs.Plans.{new_shown, changed, HasSpots, IsMade};
ghost use Rattle.dc_plain.specs.Requests.{answer_of};
ghost use Rattle.dc_plain.specs.Rows.{TakesName, MakesWay};

use crate::counts::leading_to;
use crate::plan::{Change, New};
use crate::rows::{
    Entry, Inode, Node, insert_entry, insert_inode, redirect, remove_entry, remove_inode,
};
use crate::{PlainTree, Reply, Spot, Target};
use dc_names::{NoMemory, parts_are_names_or_dots};
use std::alloc::Global;

impl New<'_> {
    fn node(self, alloc: Global) -> Result<Node, NoMemory>
        ensures { IfOk result (λ node. node_shown node ≡ new_shown self.entry) }
    {
        Ok(match self {
            New::Directory => Node::Directory,
            New::File => Node::Regular,
            New::Link(text) => Node::Symbolic(Vec::from_slice(alloc, text.bytes())?),
        })
    }
}

impl PlainTree {
    /// Carries a change out.
    pub(crate) fn carry(&mut self, alloc: Global, change: Change) -> Result<Reply, NoMemory>
        requires made { IsMade self.old.limit self.old.tree (changed self.old.tree change) }
        requires spots { HasSpots self.old.tree change }
        ensures reply { IfOk result (λ reply.
            answer_of reply ≡ (changed self.old.tree change.entry).0) }
        ensures tree { OnOk result (self.new.tree ≡ tree_by self.old.tree change.entry) }
        ensures err { OnErr result (self.new ≡ self.old) }
        ensures limit { self.new.limit ≡ self.old.limit }
    {
        match change {
            Change::Make(spot, new) => Ok(Reply::Done(self.add(alloc, spot, new)?)),
            Change::Link(spot, number) => {
                self.add_name(alloc, spot, number)?;
                Ok(Reply::Done(number))
            }
            Change::Drop(spot, number) => {
                self.drop_name(spot, number);
                Ok(Reply::Unit)
            }
            Change::Move {
                moved,
                from,
                to,
                there,
            } => {
                self.relocate(alloc, moved, from, to, there)?;
                Ok(Reply::Unit)
            }
            Change::Swap {
                moved,
                from,
                to,
                there,
            } => {
                self.swap(moved, from, to, there);
                Ok(Reply::Unit)
            }
        }
    }

    /// Adds an inode under the next number, with its name.
    fn add(&mut self, alloc: Global, spot: Spot, new: New) -> Result<u64, NoMemory>
        requires made { IsMade self.old.limit self.old.tree
            (changed self.old.tree (Change.Make spot new)) }
        requires free { HasSpots self.old.tree (Change.Make spot new) }
        ensures number { IfOk result (λ number. number ≡ self.old.tree.next) }
        ensures ok { OnOk result
            (self.new.tree ≡ tree_by self.old.tree (Change.Make spot.entry new.entry)) }
        ensures err { OnErr result (self.new ≡ self.old) }
        ensures limit { self.new.limit ≡ self.old.limit }
    {
        parts_are_names_or_dots();
        let number = self.next;
        let name = Vec::from_slice(alloc, spot.name.bytes())?;
        let node = new.node(alloc)?;
        // An entry whose inode found no room would lead nowhere: so the room is taken before the entry
        // goes in, and the inode's own step cannot fail.
        self.inodes.reserve(1)?;
        insert_entry(&mut self.entries, spot.dir, name, number)?;
        insert_inode(&mut self.inodes, number, node).unwrap();
        self.next += 1;
        Ok(number)
    }

    /// Adds a name of what lives.
    fn add_name(&mut self, alloc: Global, spot: Spot, number: u64) -> Result<(), NoMemory>
        requires made { IsMade self.old.limit self.old.tree
            (changed self.old.tree (Change.Link spot number)) }
        requires free { HasSpots self.old.tree (Change.Link spot number) }
        ensures ok { OnOk result
            (self.new.tree ≡ tree_by self.old.tree (Change.Link spot.entry number)) }
        ensures err { OnErr result (self.new ≡ self.old) }
        ensures limit { self.new.limit ≡ self.old.limit }
    {
        parts_are_names_or_dots();
        let name = Vec::from_slice(alloc, spot.name.bytes())?;
        insert_entry(&mut self.entries, spot.dir, name, number)?;
        Ok(())
    }

    /// Drops a name, and with the last one the inode.
    fn drop_name(&mut self, spot: Spot, number: u64)
        requires { IsMade self.old.limit self.old.tree
            (changed self.old.tree (Change.Drop spot number)) }
        ensures tree { self.new.tree ≡ tree_by self.old.tree (Change.Drop spot.entry number) }
        ensures limit { self.new.limit ≡ self.old.limit }
    {
        parts_are_names_or_dots();
        take_name(&mut self.entries, &mut self.inodes, spot, number);
    }

    /// Moves an inode from one name to another, over what was found there.
    fn relocate(
        &mut self,
        alloc: Global,
        moved: Target,
        from: Spot,
        to: Spot,
        there: Option<Target>,
    ) -> Result<(), NoMemory>
        requires made { IsMade self.old.limit self.old.tree
            (changed self.old.tree (Change.Move moved from to there)) }
        requires leads { HasSpots self.old.tree (Change.Move moved from to there) }
        ensures ok { OnOk result (self.new.tree
            ≡ tree_by self.old.tree (Change.Move moved from.entry to.entry there)) }
        ensures err { OnErr result (self.new ≡ self.old) }
        ensures limit { self.new.limit ≡ self.old.limit }
    {
        parts_are_names_or_dots();
        let name = Vec::from_slice(alloc, to.name.bytes())?;
        // A move that failed half way would have lost the old name: so the room for the new one is
        // taken first, and nothing fails after the old one went.
        self.entries.reserve(1)?;
        make_way(&mut self.entries, &mut self.inodes, from, to, there);
        insert_entry(&mut self.entries, to.dir, name, moved.0).unwrap();
        Ok(())
    }

    /// Lets two names lead to each other's inodes.
    fn swap(&mut self, moved: Target, from: Spot, to: Spot, there: Target)
        requires made { IsMade self.old.limit self.old.tree
            (changed self.old.tree (Change.Swap moved from to there)) }
        requires leads { HasSpots self.old.tree (Change.Swap moved from to there) }
        ensures tree { self.new.tree
            ≡ tree_by self.old.tree (Change.Swap moved from.entry to.entry there) }
        ensures limit { self.new.limit ≡ self.old.limit }
    {
        parts_are_names_or_dots();
        redirect(&mut self.entries, from.dir, from.name.bytes(), there.0);
        redirect(&mut self.entries, to.dir, to.name.bytes(), moved.0);
    }
}

/// Takes a name away, and with the last one the inode.
fn take_name(entries: &mut Vec<Entry>, inodes: &mut Vec<Inode>, spot: Spot, number: u64)
    ensures rows { TakesName entries.old inodes.old spot.entry number entries.new inodes.new }
    ensures bound { vec_len entries.new ≤ vec_len entries.old }
    ensures capacity { vec_capacity entries.new ≡ vec_capacity entries.old }
{
    remove_entry(entries, spot.dir, spot.name.bytes());
    if leading_to(entries, number) == 0 {
        remove_inode(inodes, number);
    }
}

/// Takes away what was found at the new name, and the old name.
fn make_way(
    entries: &mut Vec<Entry>,
    inodes: &mut Vec<Inode>,
    from: Spot,
    to: Spot,
    there: Option<Target>,
)
    ensures rows { MakesWay entries.old inodes.old from.entry to.entry there
        entries.new inodes.new }
    ensures bound { vec_len entries.new ≤ vec_len entries.old }
    ensures capacity { vec_capacity entries.new ≡ vec_capacity entries.old }
{
    if let Some((number, _)) = there {
        take_name(entries, inodes, to, number);
    }
    remove_entry(entries, from.dir, from.name.bytes());
}
