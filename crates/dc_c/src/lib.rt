//! The static library for programs in C: each function calls the proved call of its name.
//!
//! A handle is one pointer, null while it is blank, and owns a hold on a cache (`dc_hold::Hold`). Each
//! function takes the hold out of its handle, calls, and puts it back, so that a handle in a call is blank. A
//! second call with it meanwhile breaks the header's rules: it is answered `BadPass` if it finds the handle
//! blank, but the two may also read the pointer at the same moment, and then both have the hold. Each returns
//! what `Status::number` says.
#![tactic(auto)]

mod along;
mod changes;
mod entries;
mod handle;
mod held;
mod looks;
mod parts;
mod passes;
mod whereabouts;

pub use along::{gb_look_fast_along, gb_try_look_along};
pub use changes::{
    gb_try_create, gb_try_link, gb_try_mkdir, gb_try_rename, gb_try_rmdir, gb_try_symlink,
    gb_try_unlink,
};
pub use entries::gb_try_entries;
pub use handle::Handle;
pub use looks::{
    gb_look_fast, gb_readlink_fast, gb_try_list, gb_try_look, gb_try_readlink, gb_try_resolve,
    gb_try_stat,
};
pub use passes::{
    gb_cache_new, gb_cache_with_names, gb_close, gb_counts, gb_learn, gb_pass_join, gb_pass_split,
    gb_rows_in_use, gb_try_shrink,
};
pub use whereabouts::gb_try_path_of;
