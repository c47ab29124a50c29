//! Paths as bytes.

ghost use Rattle.std.specs.Prelude.{◌≡◌, ◌==◌, IfOk, IfErr, IfSome, ◌<◌, ◌≤◌, IsTrue, None, Some, length, nat_lt};
ghost use Rattle.std.specs.List.{list_any, list_all};
ghost use Rattle.dc_names.specs.Bytes.{pieces, has_parts};
ghost use Rattle.dc_names.specs.declared.limits.TheConstants.{NAME_MAX};
ghost use Rattle.dc_names.specs.Paths.{fault_of, parts_of, has_end_slash, begins_with_slash, ends_in_slash};

use crate::{Components, NAME_MAX, PATH_MAX, TextFault};

/// The bytes of a path without a fault: 1 to `PATH_MAX` bytes, none of them zero, with components of
/// at most `NAME_MAX` bytes.
#[derive(Clone, Copy, Debug, PartialEq, Eq)]
pub struct PathText<'a> {
    bytes: &'a [u8],
    ghost valid: { fault_of bytes.now ≡ None },
}

/// The path that the bytes are, or their first fault.
pub fn parse(bytes: &[u8]) -> Result<PathText<'_>, TextFault>
    ensures path { IfOk result (λ path. path.bytes.now ≡ bytes.now) }
    ensures sound { IfOk result (λ path. fault_of bytes.now ≡ None) }
    ensures fault { IfErr result (λ fault. fault_of bytes.now ≡ Some fault) }
{
    if bytes.is_empty() {
        Err(TextFault::Empty)
    } else if bytes.len() > PATH_MAX || has_long_piece(bytes) {
        Err(TextFault::Long)
    } else if has_zero(bytes) {
        Err(TextFault::Zero)
    } else {
        Ok(PathText { bytes })
    }
}

/// Whether a component has more than `NAME_MAX` bytes.
fn has_long_piece(bytes: &[u8]) -> bool
    ensures { result ≡ list_any (λ piece. nat_lt NAME_MAX (length piece)) (pieces bytes.now) }
{
    // No piece is longer than the text, and most texts are short.
    bytes.len() > NAME_MAX
        && bytes
            .split(|b| *b == b'/')
            .any(|piece| piece.len() > NAME_MAX)
}

/// Whether a zero byte stands there.
fn has_zero(bytes: &[u8]) -> bool
    ensures { result ≡ list_any (λ b. b == 0) bytes.now }
{
    if let Some(zero) = has_zero_by::<16>(bytes) {
        zero
    } else if let Some(zero) = has_zero_by::<8>(bytes) {
        zero
    } else {
        is_any_zero(bytes)
    }
}

/// Whether a zero byte stands there, by this many bytes at a time, or `None` if there are fewer.
// Inlined, as is `is_any_zero`. The last ones may overlap those before (measured): a loop over what is left
// behind the others would end at another place for each path, which no processor guesses.
#[inline(always)]
fn has_zero_by<const N: usize>(bytes: &[u8]) -> Option<bool>
    requires { (0 < N) × (N ≤ 16) }
    ensures { IfSome result (λ zero. zero ≡ list_any (λ b. b == 0) bytes.now) }
{
    let last = bytes.last_chunk::<N>()?;
    let (chunks, _) = bytes.as_chunks::<N>();
    let zero = is_any_zero(last)
        || chunks.iter().any(
            |chunk|
                ensures { result ≡ list_any (λ b. b == 0) chunk.now }
            { is_any_zero(chunk) },
        );
    Some(zero)
}

/// Whether one of these bytes is zero. It looks at all of them, so that several are looked at at a time.
// Inlined: the loop is one over as many bytes as its caller knows.
#[inline(always)]
fn is_any_zero(bytes: &[u8]) -> bool
    ensures { result ≡ list_any (λ b. b == 0) bytes.now }
{
    bytes.iter().fold(false, |zero, b| zero | (*b == 0))
}

impl<'a> PathText<'a> {
    /// The path of bytes of which the caller knows that they have no fault.
    #[must_use]
    pub fn known(bytes: &'a [u8]) -> PathText<'a>
        requires { fault_of bytes.now ≡ None }
        ensures { result.bytes.now ≡ bytes.now }
    {
        PathText { bytes }
    }

    /// The bytes of the path.
    #[must_use]
    pub fn bytes(&self) -> &'a [u8]
        ensures bytes { result.now ≡ self.now.bytes.now }
        ensures valid { fault_of result.now ≡ None }
        ensures parts { IsTrue (has_parts result.now) }
    {
        self.bytes
    }

    /// The components from first to last.
    #[must_use]
    pub fn components(&self) -> Components<'a>
        ensures { parts_of result.rest.now ≡ parts_of self.now.bytes.now }
    {
        Components::new(self.bytes())
    }

    /// Whether the path is resolved from the root.
    #[must_use]
    pub fn is_absolute(&self) -> bool
        ensures { result ≡ begins_with_slash self.now.bytes.now }
    {
        matches!(self.bytes.first(), Some(b'/'))
    }

    /// Whether the last byte is a slash and some byte isn't.
    #[must_use]
    pub fn has_end_slash(&self) -> bool
        ensures { result ≡ has_end_slash self.now.bytes.now }
    {
        ends_in_slash(self.bytes) && !is_all_slashes(self.bytes)
    }
}

fn ends_in_slash(bytes: &[u8]) -> bool
    ensures { result ≡ ends_in_slash bytes.now }
{
    match bytes.last() {
        Some(byte) => *byte == b'/',
        None => false,
    }
}

fn is_all_slashes(bytes: &[u8]) -> bool
    ensures { result ≡ list_all (λ b. b == 47) bytes.now }
{
    bytes.iter().all(|b| *b == b'/')
}
