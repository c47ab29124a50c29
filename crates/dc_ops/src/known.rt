//! A directory that is known beforehand, so that a plan need not look it up.

/// Where some bytes lead as a path from a starting directory, by a look-up that followed every link and
/// wanted a directory. They are those before the last component of a longer path, as
/// `dc_resolve::before_last_part` cuts them.
#[derive(Clone, Copy)]
pub struct Known<'a> {
    pub base: u64,
    pub front: &'a [u8],
    pub dir: u64,
}
