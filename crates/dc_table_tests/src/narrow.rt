//! The first words of a row, which tell all of it.

ghost use Rattle.std.specs.Prelude.{◌≤◌};
ghost use Rattle.dc_names.specs.declared.limits.TheConstants.{NAME_MAX};

use dc_names::NAME_MAX;
use dc_row::{Row, RowText, encode, told_words, widened};

/// How many words tell the row of a link whose text has this many bytes, and whether with zeros past them
/// they are the row.
fn told(bytes: usize) -> Option<(usize, bool)>
    requires { bytes ≤ NAME_MAX }
{
    let text = [b'n'; NAME_MAX];
    let words = encode(&Row::Link(2, RowText::of(&text[..bytes])?))?;
    let many = told_words(&words);
    Some((many, widened(&words[..many]) == words))
}

/// Four words stand before a row's text, and eight of its bytes in each of the others.
#[test]
fn first_words_tell_a_row(rt: HostRuntime) {
    assert!(rt; told(1) == Some((5, true)) && told(8) == Some((5, true)));
    assert!(rt; told(9) == Some((6, true)) && told(NAME_MAX) == Some((36, true)));
}
