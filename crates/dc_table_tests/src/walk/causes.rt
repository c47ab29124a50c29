//! Why walks give up.

use super::{change, count, is_answered, look};
use crate::calls::mkdir;
use dc_names::Kind;
use dc_plain::Reply;
use dc_table::Shared;
use dc_walk::{Fast, Why};
use std::test::Fail;

/// The first bytes of a text, this many at most.
fn front(text: &[u8], most: usize) -> &[u8] {
    if most < text.len() {
        &text[..most]
    } else {
        text
    }
}

/// As many keys are answered as rows can be noted, and the next one is too many for either walk.
#[test]
fn one_key_more_than_can_be_used_is_long(rt: HostRuntime) -> Result<(), Fail> {
    let (shared, mut p) = Shared::new(rt.alloc(), 1024, 300).expect(&rt, "memory");
    let mut text = [b'/'; 514];
    for i in 0..257 {
        text[2 * i + 1] = b'a';
        let made = change(&rt, rt.alloc(), &shared, &mut p, &mkdir(&text[..2 * i + 2]));
        assert!(rt; made.is_some());
    }
    let found = count(&rt, rt.alloc(), &shared, &mut p, &text);
    assert!(rt; matches!(found, Some(Fast::Again(Why::Long))));
    let found = look(&shared, &mut p, front(&text, 512));
    assert!(rt; is_answered(&found, &Reply::Found(257, Kind::Dir), 257));
    let found = look(&shared, &mut p, &text);
    assert!(rt; matches!(found, Some(Fast::Again(Why::Long))));
    Ok(())
}

const CHANGED: Why = Why::Changed {
    row: 3,
    noted: 2,
    found: 4,
};

static TOLD: [(Why, &str); 6] = [
    (Why::Miss(2), "no row has the name after 2 questions"),
    (Why::Busy(7), "row 7 is being changed"),
    (CHANGED, "row 3 went from count 2 to 4"),
    (Why::Long, "the path is too long for the rows"),
    (Why::Link, "no row has the text of the link"),
    (Why::Memory, "no memory for a row"),
];

#[test]
fn causes_are_told(rt: HostRuntime) -> Result<(), Fail> {
    for (why, text) in TOLD.iter() {
        assert_eq!(rt; format!(in rt.alloc(); "{why}")?.as_str(), *text);
    }
    Ok(())
}
