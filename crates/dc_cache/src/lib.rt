//! A cache of directory entries in front of an inode store in memory, which threads share.
//!
//! It does what Linux's `fs/dcache.c` does with hashed dentries, negative dentries, sequence counts and
//! rcu-walk. A look-up goes from row to row without a lock, and checks afterwards that no row it used has
//! changed. Each call that is answered takes effect at one point between its start and its return; in the
//! order of these points all replies are those of one plain tree, which knows no cache.
//!
//! # A first example
//!
//! ```text
//! let (cache, mut pass) = Dcache::new(alloc, 256, 65_536)?;
//! let mkdir = Call::Mkdir { base: ROOT, path: b"/a" };
//! let made = cache.change(&rt, alloc, &mut pass, &mkdir)?;
//! let found = cache.resolve(&rt, alloc, &mut pass, ROOT, b"/a", Follow::Yes);
//! let mut other = cache.split(&mut pass);
//! let quick = cache.look_fast(&mut other, ROOT, parse(b"/a")?, Follow::Yes);
//! cache.join(&mut pass, other);
//! let ended = cache.close(pass);
//! ```
//!
//! `made` is `Done(2)` at 0: the new directory has the number 2, and no change came before. `found` is
//! `Found(2, Dir)` at 1, and so is `quick`, whose row the look-up before it has filled. `CALLING.md` says
//! which call does what, and shows a caller that is proved; the crate `dc_uses` has it and four more, one
//! in each file.
//!
//! # Passes
//!
//! A thread calls the cache with a `Pass`, which is a place for the rows that a look-up uses and, for the
//! proof alone, a book of the calls that were answered with it. Threads share the cache by `&`; a pass
//! is lent to one call at a time, as `&mut` says. A pass serves the cache that it comes from and no other,
//! which each contract states as `Fits cache pass`, and each call leaves that true.
//!
//! `new` hands out the first pass, `with_buckets` and `with_names` that of a larger table. `split` cuts
//! one for another thread from a pass that is there, and `join` takes it back together with its book. Each pass
//! has a share of the cache: the first has the whole, `split` halves it, and `join` adds. `close` ends
//! the cache and gives the tree with the number of changes. It never fails for the pass that has the
//! whole share; with a lesser one it gives `None` if another pass has the lock, and the tree is lost. A
//! pass that is dropped takes its share with it.
//!
//! # Which calls wait, and which take memory
//!
//! There is one lock. Changes, reads of the tree and the filling of rows take it. The two halves of this
//! table stand in `never_waits` and `waits`.
//!
//! | call | takes the lock | takes memory | without an answer |
//! |---|---|---|---|
//! | `look_fast`, `look_text` | never | none | `Again`, with the cause |
//! | `readlink_fast` | never | none | `Again`, with the cause; `Link` for a link |
//! | `look_fast_along` | never | none | `Again`, with the cause; `TooFewPlaces` |
//! | `try_resolve` | tries once, if the rows don't answer | for rows, as far as there is any | `None` |
//! | `try_resolve_along` | tries once, if the rows don't answer | for rows, as far as there is any | `None`, `TooFewPlaces` |
//! | `try_look`, after `look_fast` | tries once | for rows, as far as there is any | `None` |
//! | `try_look_along` | tries once | none | `None`, `TooFewPlaces` |
//! | `try_stat`, `try_path_of`, `try_shrink` | tries once | none | `None` |
//! | `try_readlink`, `try_list` | tries once | for the text or the names | `None`, `NoMemory` |
//! | `try_entries` | tries once | for the entries | `None`, `NoMemory` |
//! | `try_change`, `try_change_telling` | tries once | for what it makes or moves | `None`, `NoMemory`, `Spent` |
//! | `learn` | never | none | `NotYet` |
//! | `counts`, `split`, `join`, `close` | never | none | as said above |
//! | `resolve` | waits, once, if the rows don't answer | for rows, as far as there is any | never |
//! | `resolve_along` | waits, once, if the rows don't answer | for rows, as far as there is any | `TooFewPlaces` |
//! | `look_missed`, after `look_fast` | waits, once | for rows, as far as there is any | never |
//! | `look_counted` | waits, for each row that it pins and once more | for rows | `Again`, with the cause |
//! | `look` | waits as `look_counted`, and once more, if the rows don't answer | for rows, as far as there is any | never |
//! | `stat`, `path_of` | waits, once | none | never |
//! | `readlink`, `list` | waits, once | for the text or the names | `NoMemory` |
//! | `entries` | waits, once | for the entries | `NoMemory` |
//! | `change` | waits, once | for what it makes or moves | `NoMemory`, `Spent` |
//! | `shrink` | waits, once | none | never |
//!
//! A `try_` call tries for the lock once; if the lock is held, the call first watches it for a few
//! microseconds. It answers `None` if another pass has it still, and then nothing at all has changed; a
//! `try_resolve` or a change has then read rows, and may have seen a later clock, but records nothing. Else
//! it answers as the call that waits. `try_look` asks the tree for the whole path, so a caller asks the rows
//! first, by `look_fast`, which takes no lock; `try_resolve` does both.
//!
//! A call that waits takes `rt`, a runtime that can put a thread to sleep (the bound `Wait`); the type of
//! a call without it says that it returns. A call that may take memory takes `alloc`, the allocator. If
//! memory is refused, the tree and the book are as they were. A change that is refused, an `Unlink`, a
//! `Rmdir` and an exchange take none, and a `readlink`, a `list` or an `entries` that is refused takes none.
//!
//! # Without a runtime
//!
//! A `Dcache` has all these calls. A `Sleepless` has those that never wait, so that no thread ever sleeps
//! until its lock is free. Its calls wake nobody, and those of a `Dcache` that had the lock wake a thread
//! that waits for it. So a `Sleepless` serves callers that can neither sleep nor wake, as a library for C.
//! The two are one type, `Cache`, with the mark `Sleepers` or `Nobody`, and have the same contracts.
//!
//! # Base, at, follow
//!
//! `base` is the number of the directory that a relative path starts from, as the open directory of
//! `openat`. A path that begins with a slash starts from the root, whose number is `ROOT`. Numbers come
//! from replies, as `Found(number, kind)`; one that no directory has any more is refused with ENOENT.
//!
//! `at` of an answer is its point: how many calls had altered the tree before it took effect. A change
//! that altered the tree ends one above its `at`. What a pass has seen is past for it: none of its later
//! calls takes effect before that. To see what another thread did, learn its point p by any means, and
//! call `learn(pass, p + 1)`: then every later call of this pass comes after that change. `learn` answers
//! `NotYet` for a number that the cache has not come to.
//!
//! `Follow` says what becomes of a link that a path ends in, as AT_SYMLINK_NOFOLLOW and O_DIRECTORY do.
//!
//! # Refusals and faults
//!
//! A `Reply::Refused(number)` is an answer, which has its point and stands in the book. The number is the
//! error's number on Linux. `Refusal` names them: each of its variants says when POSIX.1-2017 wants it. A
//! text that is no path is refused so by every call (ENOENT if it is empty, ENAMETOOLONG, EINVAL for a
//! zero byte); `parse`, which `look_fast` wants called first, says the same as `TextFault`.
//!
//! Faults are no answers: nothing is recorded. `MakeFault` comes from `new`, `with_buckets` and `with_names`
//! alone. `ChangeFault::Spent` says that the tree was altered 2^62 times. `Why` is the cause of an `Again`:
//! `Miss` and `Link` if no row has the name or the link's text, `Busy` and `Changed` if a change came
//! between, `Long` if more than 256 rows would be used (no name is too long for a row), `Memory` from
//! `look_counted`. After `Busy` and `Changed` a second `look_fast` may well answer; after the others only a
//! call that takes the lock does: `look_missed`, or `try_look`, and both fill the rows. If many look-ups
//! miss, ask `resolve` or `try_resolve` at once: a miss is quicker by them.
#![tactic(auto)]

mod along;
mod cache;
mod entries;
mod filler;
mod gone;
mod links;
mod never_waits;
mod passes;
mod under_lock;
mod waits;
mod whereabouts;

pub use along::TooFewPlaces;
pub use cache::{Cache, Dcache, Ended, NotYet, Pass, Sleepless};
pub use dc_names::{Kind, Name, NoMemory, PATH_MAX, Part, PathText, Refusal, TextFault, parse};
pub use dc_plain::{Call, Flags, Follow, Reply, Sort, Stamped};
pub use dc_rows::ChangeFault;
pub use dc_store::{Entry, SlabStore, Store};
pub use dc_table::{Counts, MakeFault, Nobody, Sleepers, Wakes};
pub use dc_walk::{Fast, FastAlong, MOST_LOADS, Why};
pub use entries::Entries;
pub use gone::Gone;
pub use links::FastLink;
pub use whereabouts::Whereabouts;

/// The number of the root directory: the base of a caller that has no other directory.
pub const ROOT: u64 = 1;
