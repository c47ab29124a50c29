//! What a store of inodes and entries does, as calls on a plain tree.

ghost use Rattle.std.specs.Prelude.{◌≡◌, None, Some, length, option_map, IsTrue, IfSome, IfOk, OnOk, OnErr};
ghost use Rattle.dc_names.specs.Paths.{fault_of};
ghost use Rattle.dc_plain.specs.BytesShown.{names_shown};
ghost use Rattle.dc_plain.specs.Conditions.{CanSwap};
ghost use Rattle.dc_plain.specs.Effects.{tree_swapped};
ghost use Rattle.dc_plain.specs.Facts.Label.{Parent};
ghost use Rattle.dc_plain.specs.IsWellFormed.{IsWellFormed};
ghost use Rattle.dc_plain.specs.Trees.{Tree, entry_number, inode_of, entry_of, text_of, kind_of, names_in, is_live_directory};
ghost use Rattle.dc_store.specs.Added.{CanAdd, tree_added, number_added};
ghost use Rattle.dc_store.specs.Counts.{count_of};
ghost use Rattle.dc_store.specs.Dropped.{CanDrop, Drops};
ghost use Rattle.dc_store.specs.Moved.{CanStandAt, tree_moved};
ghost use Rattle.dc_plain.specs.Spots.{spot_at, spot_shown};

use dc_names::{Kind, Name, NoMemory, PathText};
use dc_plain::Spot;
use std::alloc::Global;

/// What a new entry leads to.
#[derive(Clone, Copy)]
pub enum New<'a> {
    /// A new directory.
    Dir,
    /// A new file.
    File,
    /// A new link with this text.
    Link(PathText<'a>),
    /// The inode of this number, which is no directory.
    Same(u64),
}

/// Inodes by their numbers and entries by their directories and names, as a plain tree.
pub trait Store {
    /// The plain tree that it stands for.
    ghost tree: { Self → Tree };

    /// The number that a name in a directory leads to. `None` if there is no such entry, or no such
    /// directory.
    fn find(&self, dir: u64, name: Name<'_>) -> Option<u64>
        ensures target { result ≡ entry_number (tree self.now) (spot_at dir name.entry.bytes.now) }
        ensures well { IsWellFormed (tree self.now) };

    /// The kind of an inode. `None` if nothing lives under the number.
    fn kind(&self, number: u64) -> Option<Kind>
        ensures kind { result ≡ option_map kind_of (inode_of (tree self.now) number) }
        ensures well { IsWellFormed (tree self.now) };

    /// The directory that holds a directory's entry. The root holds itself. `None` if no directory
    /// lives under the number.
    fn parent(&self, number: u64) -> Option<u64>
        ensures parent { result
            ≡ option_map (λ place. place.0) (entry_of (tree self.now) number Parent) }
        ensures directory { IfSome result (λ up. IsTrue (is_live_directory (tree self.now) up)) };

    /// The text of a link, which is a path. `None` if no link lives under the number.
    fn text(&self, number: u64) -> Option<&[u8]>
        ensures text { option_map (λ text. text.now) result ≡ text_of (tree self.now) number }
        ensures path { IfSome result (λ text. fault_of text.now ≡ None) };

    /// How many inodes live, the root among them.
    fn live(&self) -> u64
        ensures count { result ≡ length (tree self.now).inodes }
        ensures well { IsWellFormed (tree self.now) };

    /// The number of the next new inode, at most `NUMBER_LIMIT`.
    fn next(&self) -> u64
        ensures next { result ≡ (tree self.now).next }
        ensures well { IsWellFormed (tree self.now) };

    /// How many names a file or link has, or how many entries stand in a directory. 0 if nothing
    /// lives under the number.
    fn count(&self, number: u64) -> u64
        ensures count { result ≡ count_of (tree self.now) number }
        ensures well { IsWellFormed (tree self.now) };

    /// The names in a directory, by their bytes. None if no directory lives under the number.
    /// `NoMemory` if memory was refused.
    fn list(&self, alloc: Global, dir: u64) -> Result<Vec<Vec<u8>>, NoMemory>
        ensures { IfOk result (λ names. names_shown names ≡ names_in (tree self.now) dir) };

    /// Adds an entry to a live directory, under a name that is free there, and answers the number that
    /// it leads to: that of a new inode, if the next number is below `NUMBER_LIMIT`, or of one that
    /// lives, is no directory and has fewer than `MOST_NAMES` names.
    /// `NoMemory` if memory was refused: then nothing has changed.
    fn add(
        &mut self,
        alloc: Global,
        dir: u64,
        name: Name<'_>,
        new: New<'_>,
    ) -> Result<u64, NoMemory>
        requires directory { IsTrue (is_live_directory (tree self.old) dir) }
        requires free { entry_number (tree self.old) (spot_at dir name.bytes.now) ≡ None }
        requires can { CanAdd (tree self.old) new }
        ensures ok { OnOk result (tree self.new
            ≡ tree_added (tree self.old) dir name.entry.bytes.now new.entry) }
        ensures number { IfOk result (λ number. number ≡ number_added (tree self.old) new.entry) }
        ensures err { OnErr result (tree self.new ≡ tree self.old) };

    /// Drops an entry that is there and leads to no directory in which entries stand, and what it leads
    /// to if that was its last name. It takes no memory.
    fn drop_entry(&mut self, dir: u64, name: Name<'_>)
        requires { CanDrop (tree self.old) (spot_at dir name.bytes.now) }
        ensures { Drops (tree self.old) (spot_at dir name.entry.bytes.now) (tree self.new) };

    /// Moves an entry that is there, and leads to this number, to another name, in a live directory that
    /// isn't beneath what moves: over nothing, or over another inode that is no directory in which entries
    /// stand, whose name goes and which goes itself if that was its last.
    /// `NoMemory` if memory was refused: then nothing has changed.
    fn move_entry(
        &mut self,
        alloc: Global,
        old: Spot<'_>,
        new: Spot<'_>,
        number: u64,
    ) -> Result<(), NoMemory>
        requires leads { entry_number (tree self.old) (spot_shown old) ≡ Some number }
        requires stands { CanStandAt (tree self.old) (spot_shown new) number }
        ensures ok { OnOk result (tree self.new
            ≡ tree_moved (tree self.old) (spot_shown old.entry) (spot_shown new.entry) number) }
        ensures err { OnErr result (tree self.new ≡ tree self.old) };

    /// Lets two entries that are there, and lead to these two inodes, swap what they lead to: inodes of
    /// any kinds, of which neither is a directory above the other's name. It takes no memory.
    fn swap_entries(&mut self, a: Spot<'_>, first: u64, b: Spot<'_>, second: u64)
        requires { CanSwap (tree self.old) (spot_shown a) first (spot_shown b) second }
        ensures { tree self.new
            ≡ tree_swapped (tree self.old) (spot_shown a.entry) first (spot_shown b.entry) second };
}
