//! The limits of all crates, each stated once. Code, clauses and definitions name them.

/// The most bytes that a name has (POSIX.1-2017: NAME_MAX), as on Linux.
pub const NAME_MAX: usize = 255;

/// The most bytes that a path has: PATH_MAX of Linux without the final zero, which POSIX.1-2017 counts.
pub const PATH_MAX: usize = 4095;

/// The most links that one resolution follows, as on Linux. POSIX.1-2017 lets SYMLOOP_MAX be 8 at least.
pub const MOST_LINKS: u64 = 40;

/// The most names that a file or a link has (POSIX.1-2017: LINK_MAX, 8 at least), as in ext4.
pub const MOST_NAMES: u64 = 65_000;

/// The most inodes that may be allowed to live in a tree at a time by `new`, by the server and by the
/// checker, the root among them. This project's own.
pub const MOST_INODES: u64 = 1_048_576;

/// The most inodes of any table, the root among them. This project's own.
pub const MOST_TABLE_INODES: u64 = 1 << 32;

/// Every inode has a number below this one, and no number is used again. This project's own: no run of
/// calls comes to it.
pub const NUMBER_LIMIT: u64 = 1 << 63;

/// The most buckets of a cache by `new`, of which the number is a power of two. This project's own.
pub const MOST_BUCKETS: u64 = 1024;

/// How many rows a bucket has, as many as one key may stand in. This project's own.
pub const BUCKET_ROWS: u64 = 4;

/// The most rows of these.
pub const MOST_ROWS: u64 = BUCKET_ROWS * MOST_BUCKETS;

/// The most buckets of any table, of which the number is a power of two. This project's own: a table of
/// this many takes 6.4 gigabytes.
pub const MOST_TABLE_BUCKETS: u64 = 1 << 22;

/// The most rows of any table.
pub const MOST_TABLE_ROWS: u64 = BUCKET_ROWS * MOST_TABLE_BUCKETS;

/// How many words a row has: four, and the words of its text. This project's own.
pub const ROW_WORDS: usize = 36;

/// The most bytes that the text of a row has: as many as a name has.
pub const ROW_TEXT: usize = NAME_MAX;

/// The most keys that one call touches. It follows from what calls do: a rename touches two names and the
/// dot-dots of what moves.
pub const MOST_TOUCHED: usize = 4;

/// The most rows whose answers a walk rests on. This project's own.
pub const MOST_USED: usize = 256;

/// The most bytes of names and texts in the rows that a walk rests on: of the dot-dot by which it asks
/// for its base, of the names of its path, and, for each link that it follows, of a text and of the names
/// in it.
pub const MOST_USED_BYTES: usize = 2 + PATH_MAX + MOST_LINKS as usize * 2 * ROW_TEXT;

/// The most rows that a walk pins: those that it uses, and one that didn't tell of its key.
pub const MOST_PINNED: usize = MOST_USED + 1;

/// The most loads of a look-up without the lock: for each question of all words of the rows of a bucket
/// and once more of one's count, and of the clock.
pub const MOST_LOADS: u64 = MOST_USED as u64 * (BUCKET_ROWS * ROW_WORDS as u64 + 1) + 1;

/// The most that the clock, the sequence count of a row or its number of pins comes to. This project's
/// own: no run of calls comes to it, and a sum of two fits in 64 bits.
pub const MOST_COUNT: u64 = 1 << 62;

/// How many sessions an input has: they are numbered from 0. This project's own.
pub const SESSIONS: u64 = 16;

/// `SESSIONS`, as the length of an array.
pub const SESSION_COUNT: usize = SESSIONS as usize;

/// The most bytes that an input has. This project's own.
pub const MOST_INPUT: usize = 1_048_576;

/// The most reads of an input: one for each byte, one that finds the end, and one to spare.
pub const MOST_READS: u32 = MOST_INPUT as u32 + 2;

/// The greatest number of an error (MAX_ERRNO of Linux).
pub const MOST_ERRNO: u64 = 4_095;
