//! The calls that wait for the lock: look-ups that always answer, reads and changes of the tree.

ghost use Rattle.std.specs.Prelude.{◌≡◌, ◌≢◌, ◌⊎◌, ◌≤◌, None, IfOk, IfErr};
ghost use Rattle.dc_cache.specs.Answers.{Answered, Told};
ghost use Rattle.dc_cache.specs.Holds.{FillsOnce, ReadsOnce};
ghost use Rattle.dc_cache.specs.Losses.{LeavesWarm};
ghost use Rattle.dc_cache.specs.Passes.{known, view, share, Fits, Shrinks};
ghost use Rattle.dc_events.specs.Rows.{most};
ghost use Rattle.dc_names.specs.Paths.{fault_of};
ghost use Rattle.dc_ops.specs.Asked.{IsChange, IsToldAtLength};
ghost use Rattle.dc_plain.specs.Requests.{request_of};
ghost use Rattle.dc_plain.specs.Requests.Request.{Look, Stat, Readlink, List_names};
ghost use Rattle.dc_rows.specs.Changes.{Failed};
ghost use Rattle.dc_table.specs.Changes.{NothingNew};
ghost use Rattle.dc_table.specs.Shares.{HadOnce, HasNotTried};
ghost use Rattle.dc_walk.specs.Fasts.{Tried};
ghost use Rattle.dc_walk.specs.Unpins.{rows_in, GivesBack};

use crate::cache::{Cache, Pass};
use crate::under_lock;
use dc_names::{NoMemory, PathText, parse};
use dc_plain::{Call, Follow, Stamped};
use dc_rows::{ChangeFault, Guard};
use dc_table::Sleepers;
use dc_walk::{Fast, change_by_rows, walk_counted, walk_locked};
use std::alloc::Global;
use std::sync::Wait;

impl Cache<Sleepers> {
    /// Where a path leads, always answered. If the rows don't answer, it waits for the lock, once however
    /// long the path is: it asks the tree then, and fills the rows of the path under the same hold, as far
    /// as memory for them can be had. A text that is no path is refused without the lock.
    pub fn resolve<R: Wait>(
        &self,
        rt: &R,
        alloc: Global,
        pass: &mut Pass,
        base: u64,
        path: &[u8],
        follow: Follow,
    ) -> Stamped
        requires pass { Fits self.now pass.old }
        ensures same { Fits self.now pass.new × (share pass.new ≡ share pass.old) }
        ensures answered { Answered pass.old pass.new (Look base path.now follow) result }
        ensures once { HasNotTried (known pass.old) (known pass.new)
            ⊎ FillsOnce (known pass.old) (known pass.new) }
        ensures refused { fault_of path.now ≢ None → HasNotTried (known pass.old) (known pass.new) }
    {
        let path = match parse(path) {
            Ok(text) => text,
            Err(fault) => return self.refuse(pass, base, path, follow, fault),
        };
        if let Some(stamped) = self.look_briefly(pass, base, path, follow) {
            return stamped;
        }
        let look = dc_walk::Look { base, path, follow };
        let noted = Some(&pass.room);
        under_lock::look_up_waiting(&self.shared, rt, alloc, &mut pass.seat, noted, look)
    }

    /// Where a path leads, always answered, for a caller whose `look_fast` has just given up: it does what
    /// `resolve` does then, without a second walk by rows that would give up too. It waits for the lock
    /// once, asks the tree for the whole path, and fills its rows under the same hold.
    pub fn look_missed<R: Wait>(
        &self,
        rt: &R,
        alloc: Global,
        pass: &mut Pass,
        base: u64,
        path: PathText<'_>,
        follow: Follow,
    ) -> Stamped
        requires pass { Fits self.now pass.old }
        ensures same { Fits self.now pass.new × (share pass.new ≡ share pass.old) }
        ensures answered { Answered pass.old pass.new (Look base path.entry.bytes.now follow) result }
        ensures once { FillsOnce (known pass.old) (known pass.new) }
    {
        let look = dc_walk::Look { base, path, follow };
        under_lock::look_up_waiting(&self.shared, rt, alloc, &mut pass.seat, None, look)
    }

    /// Where a path leads, by rows that it pins meanwhile. It waits for the lock for each name and link
    /// whose row it pins, which is filled from the tree if no row has the name, and once more to take the
    /// pins back. `Again` says why no row could be had or didn't stay, `Memory` if memory for one was
    /// refused.
    pub fn look_counted<R: Wait>(
        &self,
        rt: &R,
        alloc: Global,
        pass: &mut Pass,
        base: u64,
        path: PathText<'_>,
        follow: Follow,
    ) -> Fast
        requires pass { Fits self.now pass.old }
        ensures same { Fits self.now pass.new × (share pass.new ≡ share pass.old) }
        ensures tried { Tried (Look base path.entry.bytes.now follow) (view pass.old)
            (view pass.new) result }
        ensures pins { GivesBack (rows_in pass.new.room) (known pass.old) (known pass.new) }
    {
        let look = dc_walk::Look { base, path, follow };
        walk_counted(
            &self.shared,
            rt,
            alloc,
            &mut pass.seat,
            &mut pass.room,
            look,
        )
    }

    /// Where a path leads, always answered, by three walks of which each is made once: by the rows alone,
    /// else by rows that it pins, as `look_counted`, else by the tree under the lock. A miss takes the lock
    /// for each name, so that `resolve` is quicker. A text that is no path is refused without the lock.
    pub fn look<R: Wait>(
        &self,
        rt: &R,
        alloc: Global,
        pass: &mut Pass,
        base: u64,
        path: &[u8],
        follow: Follow,
    ) -> Stamped
        requires pass { Fits self.now pass.old }
        ensures same { Fits self.now pass.new × (share pass.new ≡ share pass.old) }
        ensures answered { Answered pass.old pass.new (Look base path.now follow) result }
        ensures refused { fault_of path.now ≢ None → HasNotTried (known pass.old) (known pass.new) }
    {
        let text = match parse(path) {
            Ok(text) => text,
            Err(fault) => return self.refuse(pass, base, path, follow, fault),
        };
        if let Some(stamped) = self.look_briefly(pass, base, text, follow) {
            return stamped;
        }
        let again = self.look_counted(rt, alloc, pass, base, text, follow);
        if let Fast::Done(stamped) = again {
            return stamped;
        }
        let call = Call::Look { base, path, follow };
        walk_locked(&self.shared, rt, &mut pass.seat, &call)
    }

    /// Where a path leads, and how many names or entries that inode has. It waits for the lock, and
    /// takes no memory.
    pub fn stat<R: Wait>(&self, rt: &R, pass: &mut Pass, base: u64, path: &[u8]) -> Stamped
        requires pass { Fits self.now pass.old }
        ensures same { Fits self.now pass.new × (share pass.new ≡ share pass.old) }
        ensures answered { Answered pass.old pass.new (Stat base path.now) result }
        ensures once { ReadsOnce (known pass.old) (known pass.new) }
    {
        let call = Call::Stat { base, path };
        let guard = Guard::lock(&self.shared, rt, &mut pass.seat);
        let (back, sought) = under_lock::seek::<Sleepers>(guard, &call);
        // For the proof, here and below: the seat is back as it is bound.
        let _seat = back;
        sought
    }

    /// The text of the symbolic link that a path leads to; a last link isn't followed. It waits for the
    /// lock. `NoMemory` if memory for the text was refused; a refusal takes none.
    pub fn readlink<R: Wait>(
        &self,
        rt: &R,
        alloc: Global,
        pass: &mut Pass,
        base: u64,
        path: &[u8],
    ) -> Result<Stamped, NoMemory>
        requires pass { Fits self.now pass.old }
        ensures same { Fits self.now pass.new × (share pass.new ≡ share pass.old) }
        ensures told { Told pass.old pass.new (Readlink base path.now) result }
        ensures once { ReadsOnce (known pass.old) (known pass.new) }
    {
        self.tell(rt, alloc, pass, &Call::Readlink { base, path })
    }

    /// The names in the directory that a path leads to, by their bytes. It waits for the lock, and all others
    /// then wait until every name is read: with ten million names for seconds. `NoMemory` if memory for the
    /// names was refused; a refusal takes none.
    pub fn list<R: Wait>(
        &self,
        rt: &R,
        alloc: Global,
        pass: &mut Pass,
        base: u64,
        path: &[u8],
    ) -> Result<Stamped, NoMemory>
        requires pass { Fits self.now pass.old }
        ensures same { Fits self.now pass.new × (share pass.new ≡ share pass.old) }
        ensures told { Told pass.old pass.new (List_names base path.now) result }
        ensures once { ReadsOnce (known pass.old) (known pass.new) }
    {
        self.tell(rt, alloc, pass, &Call::List { base, path })
    }

    /// Answers a read whose reply takes memory.
    fn tell<R: Wait>(
        &self,
        rt: &R,
        alloc: Global,
        pass: &mut Pass,
        call: &Call<'_>,
    ) -> Result<Stamped, NoMemory>
        requires pass { Fits self.now pass.old }
        requires call { IsToldAtLength call.now }
        ensures same { Fits self.now pass.new × (share pass.new ≡ share pass.old) }
        ensures told { Told pass.old pass.new (request_of call.now) result }
        ensures once { ReadsOnce (known pass.old) (known pass.new) }
    {
        let guard = Guard::lock(&self.shared, rt, &mut pass.seat);
        let (back, told) = under_lock::ask::<Sleepers>(guard, alloc, call);
        let _seat = back;
        told
    }

    /// Makes a change. It looks the directory of the change's name up by rows, and then waits for the lock,
    /// which it has for the name alone if the rows answered. `Spent` if it would alter the tree for more
    /// than the 2^62nd time, `NoMemory` if memory was refused: then the tree is as it was. A change that is
    /// refused, an `Unlink`, a `Rmdir` and an exchange take no memory.
    pub fn change<R: Wait>(
        &self,
        rt: &R,
        alloc: Global,
        pass: &mut Pass,
        call: &Call<'_>,
    ) -> Result<Stamped, ChangeFault>
        requires pass { Fits self.now pass.old }
        requires change { IsChange call.now }
        ensures same { Fits self.now pass.new × (share pass.new ≡ share pass.old) }
        ensures done { IfOk result (Answered pass.old pass.new (request_of call.now)) }
        ensures fault { IfErr result (Failed (share pass.old).limit (known pass.new).got.history
            (view pass.old) (view pass.new) (request_of call.now)) }
        ensures within { (view pass.new).book.seen ≤ most }
        ensures rows { LeavesWarm pass.old pass.new (request_of call.now) result }
    {
        let (reply, at) = change_by_rows(
            &self.shared,
            rt,
            alloc,
            &mut pass.seat,
            &mut pass.room,
            call,
        )?;
        Ok(Stamped { reply, at })
    }

    /// Empties up to `most` of the unpinned rows, the least recently used first, and answers how many. A
    /// row counts as used when it is filled for a key and when it loses its last pin, not when a walk reads
    /// it. It waits for the lock, and takes no memory.
    pub fn shrink<R: Wait>(&self, rt: &R, pass: &mut Pass, most: u64) -> u64
        requires pass { Fits self.now pass.old }
        ensures same { Fits self.now pass.new × (share pass.new ≡ share pass.old) }
        ensures nothing { NothingNew (view pass.old) (view pass.new) }
        ensures once { HadOnce (known pass.old) (known pass.new) }
        ensures rows { Shrinks most result pass.new }
    {
        dc_rows::shrink(&self.shared, rt, &mut pass.seat, most)
    }
}
