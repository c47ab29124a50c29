//! What an entry leads to.

ghost use Rattle.std.specs.Prelude.{◌≡◌};
ghost use Rattle.dc_plain.specs.Resolution.{is_directory};

use dc_names::Kind;

/// What an entry leads to: an inode, by its number, with its kind.
pub type Target = (u64, Kind);

/// The root directory.
pub const ROOT: Target = (1, Kind::Dir);

/// Whether a target is a directory.
#[must_use]
pub fn is_directory(target: Target) -> bool
    ensures { result ≡ is_directory target }
{
    matches!(target.1, Kind::Dir)
}
