//! Names of entries, and the parts of a path.

ghost use Rattle.std.specs.Prelude.{◌≡◌, ◌↔◌, ◌==◌, ◌||◌, ◌&&◌, not, nat_lt, length, IsTrue, IsSome, IfSome};
ghost use Rattle.std.specs.List.{list_any};
ghost use Rattle.dc_names.specs.Bytes.{is_empty, is_name, is_dot, is_dot_dot};
ghost use Rattle.dc_names.specs.declared.limits.TheConstants.{NAME_MAX};

use crate::NAME_MAX;

/// The name of an entry: 1 to `NAME_MAX` bytes, none of them a slash or zero, and neither `.` nor
/// `..`.
#[derive(Clone, Copy, Debug, PartialEq, Eq)]
pub struct Name<'a> {
    bytes: &'a [u8],
    ghost valid: { IsTrue (is_name bytes.now) },
}

impl<'a> Name<'a> {
    /// The name of these bytes, or `None` if they are none.
    #[must_use]
    pub fn new(bytes: &'a [u8]) -> Option<Name<'a>>
        ensures named { IsSome result ↔ IsTrue (is_name bytes.now) }
        ensures bytes { IfSome result (λ name. name.bytes.now ≡ bytes.now) }
    {
        if is_name(bytes) {
            Some(Name { bytes })
        } else {
            None
        }
    }

    /// The name of bytes of which the caller knows that they are one.
    #[must_use]
    pub fn known(bytes: &'a [u8]) -> Name<'a>
        requires { IsTrue (is_name bytes.now) }
        ensures { result.bytes.now ≡ bytes.now }
    {
        Name { bytes }
    }

    /// The bytes of the name.
    #[must_use]
    pub fn bytes(&self) -> &'a [u8]
        ensures bytes { result.now ≡ self.now.bytes.now }
        ensures named { IsTrue (is_name result.now) }
    {
        self.bytes
    }
}

/// A component of a path (POSIX.1-2017 XBD 4.13).
#[derive(Clone, Copy, Debug, PartialEq, Eq)]
pub enum Part<'a> {
    /// The name of an entry.
    Normal(Name<'a>),
    /// `.`, the directory itself.
    Dot,
    /// `..`, the parent directory.
    DotDot,
}

/// Whether the bytes are one dot.
pub(crate) fn is_dot(bytes: &[u8]) -> bool
    ensures { result ≡ is_dot bytes.now }
{
    matches!(bytes, [b'.'])
}

/// Whether the bytes are two dots.
pub(crate) fn is_dot_dot(bytes: &[u8]) -> bool
    ensures { result ≡ is_dot_dot bytes.now }
{
    matches!(bytes, [b'.', b'.'])
}

/// Whether the bytes are as many as a name may have.
fn has_name_length(bytes: &[u8]) -> bool
    ensures { result ≡ (not (is_empty bytes.now) && not (nat_lt NAME_MAX (length bytes.now))) }
{
    !bytes.is_empty() && bytes.len() <= NAME_MAX
}

/// Whether a byte stands there that no name has.
fn has_barred_byte(bytes: &[u8]) -> bool
    ensures { result ≡ list_any (λ b. b == 47 || b == 0) bytes.now }
{
    bytes.iter().any(|b| *b == b'/' || *b == 0)
}

fn is_name(bytes: &[u8]) -> bool
    ensures { result ≡ is_name bytes.now }
{
    has_name_length(bytes) && !has_barred_byte(bytes) && !is_dot(bytes) && !is_dot_dot(bytes)
}
