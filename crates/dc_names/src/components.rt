//! A path split at its slashes.

ghost use Rattle.std.specs.Prelude.{◌≡◌, ◌<◌, ◌==◌, [], false, length, take, IsTrue, IfSome, IfNone};
ghost use Rattle.std.specs.Iterator.{YieldsFirstBy, item_count};
ghost use Rattle.std.specs.List.{position_or_len};
ghost use Rattle.dc_names.specs.Bytes.{has_parts, is_part, IsRest};
ghost use Rattle.dc_names.specs.Hash.{hash_of, hash_from};
ghost use Rattle.dc_names.specs.Names.{part_shown};
ghost use Rattle.dc_names.specs.Paths.{part_of, parts_of, bytes_of, begins_with_slash, IsFirst};

use crate::fnv::{hash_number, hash_on};
use crate::name::{is_dot, is_dot_dot};
use crate::{Name, Part};

/// The first component and the bytes after it, or `None` if slashes alone are left.
#[must_use]
pub fn first_part(bytes: &[u8]) -> Option<(Part<'_>, &[u8])>
    requires { IsTrue (has_parts bytes.now) }
    ensures first { IfSome result (λ r. IsFirst (part_shown r.0) r.1.now bytes.now) }
    ensures last { IfNone result (parts_of bytes.now ≡ []) }
{
    let (part, rest, _) = first_part_hashed(0, bytes)?;
    Some((part, rest))
}

/// The first component, the bytes after it, and the hash of a number and the component's bytes, or `None`
/// if slashes alone are left. The hash is taken while the component's end is sought, and by a caller
/// that doesn't use it not at all.
#[must_use]
// Inlined, so that a caller that doesn't use the hash takes none.
#[inline(always)]
pub fn first_part_hashed(number: u64, bytes: &[u8]) -> Option<(Part<'_>, &[u8], u64)>
    requires { IsTrue (has_parts bytes.now) }
    ensures first { IfSome result (λ r. IsFirst (part_shown r.0) r.1.now bytes.now) }
    ensures last { IfNone result (parts_of bytes.now ≡ []) }
    ensures hash { IfSome result (λ r. r.2 ≡ hash_of number (bytes_of (part_shown r.0))) }
{
    let text = after_slashes(bytes);
    let (len, hash) = hashed_piece(hash_number(number), text);
    let (piece, rest) = text.split_at(len);
    if piece.is_empty() {
        None
    } else {
        Some((part_of(piece), rest, hash))
    }
}

/// The bytes from the first that is no slash.
fn after_slashes(bytes: &[u8]) -> &[u8]
    ensures parts { parts_of result.now ≡ parts_of bytes.now }
    ensures valid { has_parts result.now ≡ has_parts bytes.now }
    ensures start { begins_with_slash result.now ≡ false }
    ensures rest { IsRest result.now bytes.now }
{
    let mut rest = bytes;
    'slashes: while let [b'/', more @ ..] = rest {
        rest = more;
    }
    rest
}

/// How many bytes stand before the first slash, and their hash, taken on from a start.
// Inlined for the sake of `first_part_hashed`: the hash is left out if nobody uses it.
#[inline(always)]
fn hashed_piece(start: u64, bytes: &[u8]) -> (usize, u64)
    ensures len { result.0 ≡ position_or_len (λ b. b == 47) bytes.now }
    ensures hash { result.1 ≡ hash_from start (take result.0 bytes.now) }
{
    let mut hash = start;
    for at in 0..bytes.len() {
        if bytes[at] == b'/' {
            return (at, hash);
        }
        hash = hash_on(hash, bytes[at]);
    }
    (bytes.len(), hash)
}

/// The component that these bytes are, of which there is one at least.
fn part_of(piece: &[u8]) -> Part<'_>
    requires some { 0 < length piece.now }
    requires part { IsTrue (is_part piece.now) }
    ensures part { part_shown result ≡ part_of piece.now }
    ensures bytes { bytes_of (part_shown result) ≡ piece.now }
{
    if is_dot(piece) {
        Part::Dot
    } else if is_dot_dot(piece) {
        Part::DotDot
    } else {
        Part::Normal(Name::known(piece))
    }
}

/// The components that are left of a path, from first to last.
#[derive(Clone, Copy, Debug, PartialEq, Eq)]
pub struct Components<'a> {
    rest: &'a [u8],
    ghost valid: { IsTrue (has_parts rest.now) },
}

impl<'a> Components<'a> {
    pub(crate) fn new(text: &'a [u8]) -> Components<'a>
        requires { IsTrue (has_parts text.now) }
        ensures { result.rest.now ≡ text.now }
    {
        Components { rest: text }
    }
}

impl<'a> Iterator for Components<'a> {
    type Item = Part<'a>;

    ghost next_gives = { YieldsFirstBy part_shown (λ s. parts_of s.rest.now) };

    ghost remaining = { item_count (λ s. parts_of s.rest.now) };

    fn next(&mut self) -> Option<Part<'a>> {
        let (part, rest) = first_part(self.rest)?;
        self.rest = rest;
        Some(part)
    }
}
