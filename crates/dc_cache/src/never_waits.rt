//! The calls that never wait: look-ups by rows alone, and each call whose name begins with `try_`, which
//! tries for the lock once. If the lock is held, it first watches it for a few microseconds.

ghost use Rattle.std.specs.Prelude.{◌≡◌, ◌≢◌, ◌⊎◌, ◌≤◌, ◌+◌, [], None, Some, IfSome, IfNone, IsSome};
ghost use Rattle.dc_cache.specs.Answers.{Answered, IfFast, IsDone, Made, Told};
ghost use Rattle.dc_cache.specs.Holds.{FillsOnce, ReadsOnce};
ghost use Rattle.dc_cache.specs.Losses.{if_made, parted, LeavesWarm, TakesAway};
ghost use Rattle.dc_cache.specs.Passes.{buckets_of, known, view, share, Fits, FoundHeld, Shrinks, WalkedAndFoundHeld};
ghost use Rattle.dc_events.specs.Rows.{most};
ghost use Rattle.dc_names.specs.Paths.{fault_of};
ghost use Rattle.dc_names.specs.declared.limits.TheConstants.{MOST_LOADS};
ghost use Rattle.dc_ops.specs.Asked.{IsChange, IsToldAtLength};
ghost use Rattle.dc_plain.specs.Facts.{told_by};
ghost use Rattle.dc_plain.specs.Requests.{request_of, answer_of};
ghost use Rattle.dc_plain.specs.Requests.Request.{Look, Stat, Readlink, List_names};
ghost use Rattle.dc_table.specs.Changes.{NothingNew};
ghost use Rattle.dc_table.specs.Shares.{HasNotTried};
ghost use Rattle.dc_walk.specs.Fasts.{Keeps, IfAgain, RecordedAlone};
ghost use Rattle.dc_walk.specs.Looks.{outcome_by};
ghost use Rattle.dc_walk.specs.Placing.{AreNoted};

use crate::cache::{Cache, Pass};
use crate::gone::Gone;
use crate::under_lock;
use dc_names::{NoMemory, PathText, TextFault, parse};
use dc_plain::{Call, Follow, Reply, Stamped};
use dc_rows::{ChangeFault, Guard};
use dc_table::Wakes;
use dc_walk::{Fast, walk_briefly, walk_fast};
use std::alloc::Global;

impl<W: Wakes> Cache<W> {
    /// Where a path leads, by the rows of the cache alone: it takes no lock and no memory, never waits,
    /// and makes at most `MOST_LOADS` loads. `Again` says why the rows don't answer.
    #[must_use]
    pub fn look_fast(&self, pass: &mut Pass, base: u64, path: PathText<'_>, follow: Follow) -> Fast
        requires pass { Fits self.now pass.old }
        ensures same { Fits self.now pass.new × (share pass.new ≡ share pass.old) }
        ensures keeps { Keeps base path.entry.bytes.now follow (buckets_of pass.old)
            (view pass.old) (view pass.new) result }
        ensures asks { IfAgain result (outcome_by base path.entry.bytes.now follow (told_by []) ≡ None) }
        ensures untried { HasNotTried (known pass.old) (known pass.new) }
        ensures loads { (view pass.new).loads ≤ (view pass.old).loads + MOST_LOADS }
    {
        let look = dc_walk::Look { base, path, follow };
        walk_fast(self.shared.reader(), &mut pass.seat, &mut pass.room, look)
    }

    /// Where a path leads, by the rows of the cache alone, as `look_fast`, of a text that may be no path:
    /// then it is refused, by one load of the clock. `Again` says why the rows don't answer for a path.
    #[must_use]
    pub fn look_text(&self, pass: &mut Pass, base: u64, path: &[u8], follow: Follow) -> Fast
        requires pass { Fits self.now pass.old }
        ensures same { Fits self.now pass.new × (share pass.new ≡ share pass.old) }
        ensures answered { IfFast pass.old pass.new (Look base path.now follow) result }
        ensures keeps { Keeps base path.now follow (buckets_of pass.old)
            (view pass.old) (view pass.new) result }
        ensures refused { fault_of path.now ≢ None →
            IsDone result × ((view pass.new).loads ≡ (view pass.old).loads + 1) }
        ensures untried { HasNotTried (known pass.old) (known pass.new) }
        ensures loads { (view pass.new).loads ≤ (view pass.old).loads + MOST_LOADS }
    {
        match parse(path) {
            Ok(text) => match self.look_fast(pass, base, text, follow) {
                Fast::Done(found) => Fast::Done(found),
                Fast::Again(why) => Fast::Again(why),
            },
            Err(fault) => Fast::Done(self.refuse(pass, base, path, follow, fault)),
        }
    }

    /// Where a path leads, by the rows alone, which takes no lock. `None` doesn't say why, for calls that
    /// ask the tree next.
    pub(crate) fn look_briefly(
        &self,
        pass: &mut Pass,
        base: u64,
        path: PathText<'_>,
        follow: Follow,
    ) -> Option<Stamped>
        requires pass { Fits self.now pass.old }
        ensures same { Fits self.now pass.new × (share pass.new ≡ share pass.old) }
        ensures answered { IfSome result (Answered pass.old pass.new
            (Look base path.entry.bytes.now follow)) }
        ensures nothing { IfNone result (NothingNew (view pass.old) (view pass.new)) }
        ensures untried { HasNotTried (known pass.old) (known pass.new) }
        ensures noted { IfNone result (AreNoted (view pass.new) (share pass.new).rows pass.new.room) }
    {
        let look = dc_walk::Look { base, path, follow };
        walk_briefly(self.shared.reader(), &mut pass.seat, &mut pass.room, look)
    }

    /// Answers a look-up whose text is no path, which asks no question.
    pub(crate) fn refuse(
        &self,
        pass: &mut Pass,
        base: u64,
        path: &[u8],
        follow: Follow,
        fault: TextFault,
    ) -> Stamped
        requires pass { Fits self.now pass.old }
        requires fault { fault_of path.now ≡ Some fault }
        ensures same { Fits self.now pass.new × (share pass.new ≡ share pass.old) }
        ensures answered { Answered pass.old pass.new (Look base path.now follow) result }
        ensures keeps { RecordedAlone (Look base path.now follow) (answer_of result.reply) result.at
            (view pass.old) (view pass.new) }
        ensures untried { HasNotTried (known pass.old) (known pass.new) }
        ensures load { (view pass.new).loads ≡ (view pass.old).loads + 1 }
    {
        let call = Call::Look { base, path, follow };
        let at = self.shared.reader().pivot(&mut pass.seat, &call, true);
        Stamped {
            reply: Reply::Refused(fault.number()),
            at,
        }
    }

    /// Where a path leads, in one call. If the rows don't answer, it tries for the lock, once however long
    /// the path is: under it the rows that it has just read answer again if none of them has changed, and
    /// the tree answers for the names behind them, whose rows it fills under the same hold, as far as memory
    /// for them can be had. A text that is no path is refused without the lock. `None` if the rows don't
    /// answer and another pass has the lock: then nothing is recorded.
    #[must_use]
    pub fn try_resolve(
        &self,
        alloc: Global,
        pass: &mut Pass,
        base: u64,
        path: &[u8],
        follow: Follow,
    ) -> Option<Stamped>
        requires pass { Fits self.now pass.old }
        ensures same { Fits self.now pass.new × (share pass.new ≡ share pass.old) }
        ensures answered { IfSome result (Answered pass.old pass.new (Look base path.now follow)) }
        ensures once { IfSome result (λ _. HasNotTried (known pass.old) (known pass.new)
            ⊎ FillsOnce (known pass.old) (known pass.new)) }
        ensures refused { fault_of path.now ≢ None →
            IsSome result × HasNotTried (known pass.old) (known pass.new) }
        ensures held { IfNone result (WalkedAndFoundHeld pass.old pass.new) }
    {
        let text = match parse(path) {
            Ok(text) => text,
            Err(fault) => return Some(self.refuse(pass, base, path, follow, fault)),
        };
        if let Some(stamped) = self.look_briefly(pass, base, text, follow) {
            return Some(stamped);
        }
        let look = dc_walk::Look {
            base,
            path: text,
            follow,
        };
        let noted = Some(&pass.room);
        under_lock::look_up_trying::<W>(&self.shared, alloc, &mut pass.seat, noted, look)
    }

    /// Where a path leads, for a caller whose `look_fast` or `look_text` has just given up: it asks the tree
    /// for the whole path, and fills its rows under the same hold of the lock, so that the next look-up
    /// finds them. A text that is no path is refused without the lock. `None` if another pass has the lock:
    /// then nothing at all has changed.
    #[must_use]
    pub fn try_look(
        &self,
        alloc: Global,
        pass: &mut Pass,
        base: u64,
        path: &[u8],
        follow: Follow,
    ) -> Option<Stamped>
        requires pass { Fits self.now pass.old }
        ensures same { Fits self.now pass.new × (share pass.new ≡ share pass.old) }
        ensures answered { IfSome result (Answered pass.old pass.new (Look base path.now follow)) }
        ensures once { IfSome result (λ _. fault_of path.now ≡ None →
            FillsOnce (known pass.old) (known pass.new)) }
        ensures refused { fault_of path.now ≢ None →
            IsSome result × HasNotTried (known pass.old) (known pass.new) }
        ensures held { IfNone result (FoundHeld pass.old pass.new) }
    {
        let path = match parse(path) {
            Ok(text) => text,
            Err(fault) => return Some(self.refuse(pass, base, path, follow, fault)),
        };
        let look = dc_walk::Look { base, path, follow };
        under_lock::look_up_trying::<W>(&self.shared, alloc, &mut pass.seat, None, look)
    }

    /// Makes a change. It looks the directory of the change's name up by rows, and then tries for the lock,
    /// which it has for the name alone if the rows answered. `Spent` if it would alter the tree for more
    /// than the 2^62nd time, `NoMemory` if memory was refused: then the tree is as it was. A change that is
    /// refused, an `Unlink`, a `Rmdir` and an exchange take no memory. `None` if another pass has the lock:
    /// then the tree is as it was, and nothing is recorded.
    #[must_use]
    pub fn try_change(
        &self,
        alloc: Global,
        pass: &mut Pass,
        call: &Call<'_>,
    ) -> Option<Result<Stamped, ChangeFault>>
        requires pass { Fits self.now pass.old }
        requires change { IsChange call.now }
        ensures same { Fits self.now pass.new × (share pass.new ≡ share pass.old) }
        ensures made { IfSome result (Made pass.old pass.new (request_of call.now)) }
        ensures rows { IfSome result (LeavesWarm pass.old pass.new (request_of call.now)) }
        ensures within { IfSome result (λ _. (view pass.new).book.seen ≤ most) }
        ensures held { IfNone result (WalkedAndFoundHeld pass.old pass.new) }
    {
        let (made, _) = under_lock::change_trying::<W>(
            &self.shared,
            alloc,
            &mut pass.seat,
            &mut pass.room,
            call,
            false,
        )?;
        Some(match made {
            Ok((reply, at)) => Ok(Stamped { reply, at }),
            Err(fault) => Err(fault),
        })
    }

    /// Makes a change, as `try_change`, and answers besides what its name lost, as it stood under the same
    /// hold of the lock: what stood where an `Unlink` or a `Rmdir` took the name, or a `Rename` put another
    /// inode. Nothing goes by a change that is refused or isn't made, by an exchange, nor by a rename of a
    /// name onto another of the same inode.
    #[must_use]
    pub fn try_change_telling(
        &self,
        alloc: Global,
        pass: &mut Pass,
        call: &Call<'_>,
    ) -> Option<(Result<Stamped, ChangeFault>, Option<Gone>)>
        requires pass { Fits self.now pass.old }
        requires change { IsChange call.now }
        ensures same { Fits self.now pass.new × (share pass.new ≡ share pass.old) }
        ensures made { IfSome result (λ r.
            TakesAway pass.old pass.new (request_of call.now) r.0 r.1) }
        ensures within { IfSome result (λ _. (view pass.new).book.seen ≤ most) }
        ensures held { IfNone result (WalkedAndFoundHeld pass.old pass.new) }
    {
        let (made, gone) = under_lock::change_trying::<W>(
            &self.shared,
            alloc,
            &mut pass.seat,
            &mut pass.room,
            call,
            true,
        )?;
        Some(told(made, gone))
    }

    /// Empties up to `most` of the unpinned rows, the least recently used first, and answers how many. A
    /// row counts as used when it is filled for a key and when it loses its last pin, not when a walk reads
    /// it. It takes no memory. `None` if another pass has the lock: then nothing at all has changed.
    #[must_use]
    pub fn try_shrink(&self, pass: &mut Pass, most: u64) -> Option<u64>
        requires pass { Fits self.now pass.old }
        ensures same { Fits self.now pass.new × (share pass.new ≡ share pass.old) }
        ensures nothing { NothingNew (view pass.old) (view pass.new) }
        ensures rows { IfSome result (λ emptied. Shrinks most emptied pass.new) }
        ensures held { IfNone result (FoundHeld pass.old pass.new) }
    {
        match Guard::try_lock(&self.shared, &mut pass.seat) {
            Ok(mut guard) => {
                let emptied = guard.shrink(most);
                guard.give::<W>();
                Some(emptied)
            }
            Err(_seat) => None,
        }
    }

    /// Where a path leads, and how many names or entries that inode has. It takes no memory. `None` if
    /// another pass has the lock: then nothing at all has changed.
    #[must_use]
    pub fn try_stat(&self, pass: &mut Pass, base: u64, path: &[u8]) -> Option<Stamped>
        requires pass { Fits self.now pass.old }
        ensures same { Fits self.now pass.new × (share pass.new ≡ share pass.old) }
        ensures answered { IfSome result (Answered pass.old pass.new (Stat base path.now)) }
        ensures once { IfSome result (λ _. ReadsOnce (known pass.old) (known pass.new)) }
        ensures held { IfNone result (FoundHeld pass.old pass.new) }
    {
        let call = Call::Stat { base, path };
        match Guard::try_lock(&self.shared, &mut pass.seat) {
            Ok(guard) => {
                let (back, sought) = under_lock::seek::<W>(guard, &call);
                // For the proof, here and below: the seat is back as it is bound.
                let _seat = back;
                Some(sought)
            }
            Err(_seat) => None,
        }
    }

    /// The text of the symbolic link that a path leads to; a last link isn't followed. `NoMemory` if memory
    /// for the text was refused; a refusal takes none. `None` if another pass has the lock: then nothing at
    /// all has changed.
    #[must_use]
    pub fn try_readlink(
        &self,
        alloc: Global,
        pass: &mut Pass,
        base: u64,
        path: &[u8],
    ) -> Option<Result<Stamped, NoMemory>>
        requires pass { Fits self.now pass.old }
        ensures same { Fits self.now pass.new × (share pass.new ≡ share pass.old) }
        ensures told { IfSome result (Told pass.old pass.new (Readlink base path.now)) }
        ensures once { IfSome result (λ _. ReadsOnce (known pass.old) (known pass.new)) }
        ensures held { IfNone result (FoundHeld pass.old pass.new) }
    {
        self.try_tell(alloc, pass, &Call::Readlink { base, path })
    }

    /// The names in the directory that a path leads to, by their bytes. `NoMemory` if memory for the names
    /// was refused; a refusal takes none. `None` if another pass has the lock: then nothing at all has
    /// changed.
    #[must_use]
    pub fn try_list(
        &self,
        alloc: Global,
        pass: &mut Pass,
        base: u64,
        path: &[u8],
    ) -> Option<Result<Stamped, NoMemory>>
        requires pass { Fits self.now pass.old }
        ensures same { Fits self.now pass.new × (share pass.new ≡ share pass.old) }
        ensures told { IfSome result (Told pass.old pass.new (List_names base path.now)) }
        ensures once { IfSome result (λ _. ReadsOnce (known pass.old) (known pass.new)) }
        ensures held { IfNone result (FoundHeld pass.old pass.new) }
    {
        self.try_tell(alloc, pass, &Call::List { base, path })
    }

    /// Answers a read whose reply takes memory.
    fn try_tell(
        &self,
        alloc: Global,
        pass: &mut Pass,
        call: &Call<'_>,
    ) -> Option<Result<Stamped, NoMemory>>
        requires pass { Fits self.now pass.old }
        requires call { IsToldAtLength call.now }
        ensures same { Fits self.now pass.new × (share pass.new ≡ share pass.old) }
        ensures told { IfSome result (Told pass.old pass.new (request_of call.now)) }
        ensures once { IfSome result (λ _. ReadsOnce (known pass.old) (known pass.new)) }
        ensures held { IfNone result (FoundHeld pass.old pass.new) }
    {
        match Guard::try_lock(&self.shared, &mut pass.seat) {
            Ok(guard) => {
                let (back, told) = under_lock::ask::<W>(guard, alloc, call);
                let _seat = back;
                Some(told)
            }
            Err(_seat) => None,
        }
    }
}

/// What a change came to, with what it took away: nothing if it was refused or isn't made.
fn told(
    made: Result<(Reply, u64), ChangeFault>,
    gone: Option<Gone>,
) -> (Result<Stamped, ChangeFault>, Option<Gone>)
    ensures made { parted result.0 ≡ made }
    ensures gone { result.1 ≡ if_made result.0 gone }
{
    match made {
        Ok((Reply::Refused(number), at)) => {
            let reply = Reply::Refused(number);
            (Ok(Stamped { reply, at }), None)
        }
        Ok((reply, at)) => (Ok(Stamped { reply, at }), gone),
        Err(fault) => (Err(fault), None),
    }
}
