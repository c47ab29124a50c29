//! A path in two: its last component, and the bytes before it.

ghost use Rattle.std.specs.Prelude.{◌≡◌, ◌∷◌, ◌++◌, ◌-◌, [], false, IsTrue, IfSome, IfNone};
ghost use Rattle.dc_names.specs.Bytes.{has_parts};
ghost use Rattle.dc_names.specs.Names.{part_shown};
ghost use Rattle.dc_names.specs.Paths.{ends_in_slash, parts_of};
ghost use Rattle.dc_resolve.specs.Fronts.{Begins, IsFront};

use dc_names::{Part, first_part};

/// The bytes of a text before its last component: what a caller looks up beforehand for `place_in`.
#[must_use]
pub fn before_last_part(text: &[u8]) -> &[u8] {
    before_last(before_slashes(text))
}

/// The bytes before the last component, and that component, or `None` if slashes alone are left.
pub(crate) fn split_last(bytes: &[u8]) -> Option<(&[u8], Part<'_>)>
    requires { IsTrue (has_parts bytes.now) }
    ensures last { IfSome result (λ r. parts_of bytes.now ≡ parts_of r.0.now ++ part_shown r.1 ∷ []) }
    ensures none { IfNone result (parts_of bytes.now ≡ []) }
    ensures valid { IfSome result (λ r. IsTrue (has_parts r.0.now)) }
    ensures begins { IfSome result (λ r. Begins r.0.now bytes.now) }
{
    let text = before_slashes(bytes);
    let front = before_last(text);
    let (last, _) = first_part(&text[front.len()..])?;
    Some((front, last))
}

/// The bytes before the slashes at their end.
fn before_slashes(bytes: &[u8]) -> &[u8]
    ensures parts { parts_of result.now ≡ parts_of bytes.now }
    ensures valid { has_parts result.now ≡ has_parts bytes.now }
    ensures end { ends_in_slash result.now ≡ false }
    ensures begins { Begins result.now bytes.now }
{
    let mut rest = bytes;
    'slashes: while let [more @ .., byte] = rest {
        if *byte != b'/' {
            return rest;
        }
        rest = more;
    }
    rest
}

/// The bytes up to the last slash, with it.
fn before_last(bytes: &[u8]) -> &[u8]
    ensures { IsFront result.now bytes.now }
{
    let mut front = bytes;
    'back: while let [more @ .., byte] = front {
        if *byte == b'/' {
            return front;
        }
        front = more;
    }
    front
}
