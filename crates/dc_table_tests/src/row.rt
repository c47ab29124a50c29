//! Rows and the words that spell them.

ghost use Rattle.std.specs.Prelude.{◌≤◌, ◌<◌};
ghost use Rattle.dc_names.specs.declared.limits.TheConstants.{ROW_WORDS};

use dc_names::{Kind, NAME_MAX, Name};
use dc_plain::{Key, Label};
use dc_row::{
    EMPTY_ROW, ROW_TEXT, ROW_WORDS, Row, RowLabel, RowText, counts_tell_nothing, decode,
    empty_row_spells_nothing, encode, encode_entry, kind, length, number, rows_have_one_spelling,
    spelled_text, tag, target, tells_of, text_in, text_of, value, words_have_the_fact_they_spell,
    words_spell_one_row,
};

/// Whether the row is spelled by these words, whatever the sequence count is.
fn is_spelled_by(row: &Row, words: &[u64; ROW_WORDS]) -> bool {
    match encode(row) {
        Some(spelled) => spelled[1..] == words[1..],
        None => false,
    }
}

/// Whether the words spell nothing, or a row that is spelled by just them.
fn is_nothing_or_spelled(words: &[u64; ROW_WORDS]) -> bool {
    match decode(words) {
        Some(row) => is_spelled_by(&row, words),
        None => true,
    }
}

fn named(dir: u64, name: &[u8], target: Option<(u64, Kind)>) -> Option<Row> {
    Some(Row::Entry(dir, RowLabel::Name(RowText::of(name)?), target))
}

fn linked(number: u64, text: &[u8]) -> Option<Row> {
    Some(Row::Link(number, RowText::of(text)?))
}

/// The words of a row that begins with these, and has zeros after them.
pub(crate) fn wide<const FIRST: usize>(first: [u64; FIRST]) -> [u64; ROW_WORDS]
    requires { FIRST ≤ ROW_WORDS }
{
    let mut words = EMPTY_ROW;
    words[..FIRST].copy_from_slice(&first);
    words
}

/// These words without the last.
fn cut(words: &[u64]) -> &[u64] {
    match words {
        [front @ .., _] => front,
        [] => words,
    }
}

static EXAMPLES: [[u64; 5]; 5] = [
    [0, 16777985, 1, 2, 7500661],
    [0, 257, 1, 0, 120],
    [0, 16777729, 2, 1, 11822],
    [0, 770, 4, 0, 6565678],
    [0, 0, 0, 0, 0],
];

fn example(at: usize) -> Option<Row> {
    match at {
        0 => named(1, b"usr", Some((2, Kind::Dir))),
        1 => named(1, b"x", None),
        2 => Some(Row::Entry(2, RowLabel::DotDot, Some((1, Kind::Dir)))),
        3 => linked(4, b"./d"),
        _ => Some(Row::Empty),
    }
}

fn words_of(at: usize) -> Option<[u64; ROW_WORDS]> {
    encode(&example(at)?)
}

/// The words of the first examples, which are entries, by their keys, and those of a text, which has none.
fn words_of_entry(at: usize) -> Option<[u64; ROW_WORDS]> {
    let (number, label, target) = match at {
        0 => (1, Label::Name(Name::new(b"usr")?), Some((2, Kind::Dir))),
        1 => (1, Label::Name(Name::new(b"x")?), None),
        2 => (2, Label::DotDot, Some((1, Kind::Dir))),
        _ => (4, Label::Text, None),
    };
    encode_entry(Key { number, label }, target)
}

/// Whether an example is spelled by its words alone.
fn is_spelled(at: usize) -> bool
    requires { at < 5 }
{
    let words = wide(EXAMPLES[at]);
    words_spell_one_row(&words);
    words_of(at) == Some(words) && decode(&words) == example(at)
}

#[test]
fn spells_the_examples(rt: HostRuntime) {
    for at in 0..5 {
        assert!(rt; is_spelled(at), "{at}");
    }
    for at in 0..3 {
        assert!(rt; words_of_entry(at) == Some(wide(EXAMPLES[at])), "{at}");
    }
    assert!(rt; words_of_entry(3).is_none());
    assert!(rt; decode(&EMPTY_ROW) == Some(Row::Empty));
    rows_have_one_spelling();
    words_have_the_fact_they_spell();
    counts_tell_nothing();
    empty_row_spells_nothing();
}

/// What the words say of a directory's entry, or of its dot-dot, if they are of it.
fn sought(words: &[u64], dir: u64, name: &[u8]) -> Option<Option<(u64, Kind)>> {
    let label = match Name::new(name) {
        Some(name) => Label::Name(name),
        None => Label::DotDot,
    };
    if tells_of(words, Key { number: dir, label }) {
        Some(target(words))
    } else {
        None
    }
}

/// An example, the number and the name of a key, and what its words say of that, if they are of it.
static SOUGHT: [(usize, u64, &[u8], Option<Option<(u64, Kind)>>); 11] = [
    (0, 1, b"usr", Some(Some((2, Kind::Dir)))),
    (0, 2, b"usr", None),
    (0, 1, b"us", None),
    (0, 1, b"usx", None),
    (0, 1, b"..", None),
    (1, 1, b"x", Some(None)),
    (1, 1, &[b'x'; NAME_MAX], None),
    (2, 2, b"..", Some(Some((1, Kind::Dir)))),
    (2, 1, b"..", None),
    (3, 4, b"./d", None),
    (4, 0, b"..", None),
];

/// Whether the words of an example say this of a key.
fn is_sought(at: usize, dir: u64, name: &[u8], want: Option<Option<(u64, Kind)>>) -> bool {
    match EXAMPLES.get(at) {
        Some(first) => sought(&wide(*first), dir, name) == want,
        None => false,
    }
}

#[test]
fn finds_entries_by_their_words(rt: HostRuntime) {
    for (at, dir, name, want) in SOUGHT.iter() {
        assert!(rt; is_sought(*at, *dir, name, *want), "{at} {name:?}");
    }
    assert!(rt; sought(cut(&wide(EXAMPLES[0])), 1, b"usr").is_none());
}

/// An example, a link, and whether its words are of the link's text.
static TEXTS: [(usize, u64, bool); 4] = [(3, 4, true), (3, 3, false), (0, 1, false), (4, 0, false)];

/// Whether the words of an example are of a link's text.
fn is_text_of(at: usize, number: u64) -> Option<bool> {
    let label = Label::Text;
    let first = EXAMPLES.get(at)?;
    Some(tells_of(&wide(*first), Key { number, label }))
}

#[test]
fn finds_texts_by_their_words(rt: HostRuntime) {
    for (at, number, want) in TEXTS.iter() {
        assert!(rt; is_text_of(*at, *number) == Some(*want), "{at} {number}");
    }
    assert!(rt; is_usr(&wide(EXAMPLES[0])) && is_nothing_cut(&wide(EXAMPLES[3])));
}

/// Whether these words tell a name, and without the last nothing.
fn is_usr(words: &[u64]) -> bool {
    text_in(words) == RowText::of(b"usr") && text_in(cut(words)).is_none()
}

/// Whether these words tell no text without the last.
fn is_nothing_cut(words: &[u64]) -> bool {
    text_sought(cut(words)).is_none() && text_of(cut(words)).is_none()
}

/// The text of link 4, if the words spell it.
fn text_sought(words: &[u64]) -> Option<RowText> {
    let label = Label::Text;
    if tells_of(words, Key { number: 4, label }) {
        Some(spelled_text(words))
    } else {
        None
    }
}

const FULL: u64 = 0x6161616161616161;

/// The head of a row of link 4 and the words of its text, and that text, if they spell one.
static SPELLINGS: [([u64; 5], Option<&[u8]>); 12] = [
    ([2 + 256 * 3, 6565678, 0, 0, 0], Some(b"./d")),
    ([2 + 256, 47, 0, 0, 0], Some(b"/")),
    ([2 + 256 * 9, FULL, 97, 0, 0], Some(&[b'a'; 9])),
    ([2 + 256 * 32, FULL, FULL, FULL, FULL], Some(&[b'a'; 32])),
    // No byte, a zero byte in the text or at its end.
    ([2, 0, 0, 0, 0], None),
    ([2 + 256 * 3, 6553646, 0, 0, 0], None),
    ([2 + 256 * 32, FULL, FULL, FULL, FULL >> 8], None),
    // A byte after the text, at once or later.
    ([2 + 256 * 2, 6565678, 0, 0, 0], None),
    ([2 + 256 * 3, 6565678, 0, 0, 1 << 56], None),
    // An entry, a text of some kind, and one with a higher byte in its head.
    ([1 + 256 * 3, 6565678, 0, 0, 0], None),
    ([2 + 256 * 3 + (1 << 24), 6565678, 0, 0, 0], None),
    ([2 + 256 * 3 + (1 << 63), 6565678, 0, 0, 0], None),
];

/// Whether such words are read so, by both ways, and with a target not at all.
fn is_read([head, a, b, c, d]: [u64; 5], want: Option<&[u8]>) -> bool {
    let words = wide([7, head, 4, 0, a, b, c, d]);
    let text = text_sought(&words);
    text == want.and_then(RowText::of)
        && text_of(&words) == text
        && text_sought(&wide([7, head, 4, 1, a, b, c, d])).is_none()
}

#[test]
fn reads_texts_from_their_words(rt: HostRuntime) {
    for (words, want) in SPELLINGS.iter() {
        assert!(rt; is_read(*words, *want), "{words:?}");
    }
}

/// Whether words tell the longest text.
fn is_longest(words: &[u64; ROW_WORDS]) -> bool {
    let text = text_of(words);
    text == RowText::of(&[b'a'; ROW_TEXT]) && text_in(words) == text
}

/// Whether words tell no text and no row.
fn is_no_row(words: &[u64; ROW_WORDS]) -> bool {
    text_of(words).is_none() && text_in(words).is_none() && decode(words).is_none()
}

/// The longest text that a row tells, and one with a byte more, for which its words have room.
#[test]
fn tells_no_longer_text_than_a_name(rt: HostRuntime) {
    let mut words = [0x6161616161616161; ROW_WORDS];
    words[1] = 2 + 256 * ROW_TEXT as u64;
    words[3] = 0;
    words[ROW_WORDS - 1] >>= 8;
    assert!(rt; is_longest(&words) && is_nothing_or_spelled(&words) && decode(&words).is_some());
    words[ROW_WORDS - 1] = 0x6161616161616161;
    words[1] = 2 + 256 * (ROW_TEXT as u64 + 1);
    assert!(rt; is_no_row(&words));
}

#[test]
fn finds_entries_under_any_count(rt: HostRuntime) {
    let mut words = wide(EXAMPLES[0]);
    words[0] = u64::MAX;
    assert!(rt; sought(&words, 1, b"usr") == Some(Some((2, Kind::Dir))));
}

#[test]
fn reads_the_fields(rt: HostRuntime) {
    let words = wide(EXAMPLES[0]);
    assert!(rt; tag(&words) == 1 && length(&words) == 3 && kind(&words) == 1);
    assert!(rt; number(&words) == 1 && value(&words) == 2);
}

/// Names in directories, and where they lead, that have no spelling.
static NO_NAMES: [(u64, &[u8], Option<(u64, Kind)>); 4] = [
    (0, b"x", None),
    (1, b"x", Some((0, Kind::File))),
    (1, b"..", None),
    (1, b"a/b", None),
];

/// Links and their texts that have none.
static NO_LINKS: [(u64, &[u8]); 3] = [(0, b"a"), (4, b""), (4, b"a\0")];

/// Whether a row has no spelling.
fn is_refused(row: Option<Row>) -> bool {
    match row {
        Some(row) => encode(&row).is_none(),
        None => false,
    }
}

#[test]
fn refuses_what_has_no_spelling(rt: HostRuntime) {
    for (dir, name, target) in NO_NAMES.iter() {
        assert!(rt; is_refused(named(*dir, name, *target)), "{name:?}");
    }
    for (number, text) in NO_LINKS.iter() {
        assert!(rt; is_refused(linked(*number, text)), "{text:?}");
    }
    assert!(rt; is_file_above_refused() && RowText::of(&[b'a'; ROW_TEXT + 1]).is_none());
}

/// Whether a dot-dot that leads to a file has no spelling.
fn is_file_above_refused() -> bool {
    is_refused(Some(Row::Entry(2, RowLabel::DotDot, Some((1, Kind::File)))))
}

#[test]
fn spells_nothing_with_a_byte_after_the_text(rt: HostRuntime) {
    let mut words = wide(EXAMPLES[1]);
    words[5] = 1;
    assert!(rt; decode(&words).is_none());
}

#[test]
fn spells_with_one_bit_turned_just_what_is_read(rt: HostRuntime) {
    for first in EXAMPLES.iter() {
        for at in 1..ROW_WORDS {
            for bit in 0..64u32 {
                let mut turned = wide(*first);
                turned[at] ^= 1u64 << bit;
                assert!(rt; is_nothing_or_spelled(&turned));
            }
        }
    }
}

/// The next number of a fixed sequence.
fn next(seed: u64) -> u64 {
    seed.wrapping_mul(6364136223846793005)
        .wrapping_add(1442695040888963407)
}

/// Eight letters, of which the first `used` stand.
fn letters(seed: u64, used: u64) -> u64 {
    let all = (seed | 0x4040404040404040) & 0x7f7f7f7f7f7f7f7f;
    if used == 0 {
        0
    } else if used < 8 {
        all & (u64::MAX >> (64 - 8 * used))
    } else {
        all
    }
}

/// Words such as a row has, if the text is now and then longer than its length.
fn likely(seed: u64) -> [u64; ROW_WORDS] {
    let len = seed % 300;
    let mut left = len + seed / 40500 % 2;
    let mut words = [0; ROW_WORDS];
    words[1] = seed / 300 % 3 + 256 * len + 16777216 * (seed / 900 % 5);
    words[2] = seed / 4500 % 3;
    words[3] = seed / 13500 % 3;
    for word in words[4..].iter_mut() {
        *word = letters(next(seed), left);
        left = left.saturating_sub(8);
    }
    words
}

#[test]
fn spells_at_random_just_what_is_read(rt: HostRuntime) {
    let mut seed = 1;
    let mut rows: u64 = 0;
    for _ in 0..20000 {
        seed = next(seed);
        let words = likely(seed >> 20);
        assert!(rt; is_nothing_or_spelled(&words));
        if decode(&words).is_some() {
            rows = rows.wrapping_add(1);
        }
    }
    assert!(rt; rows > 100);
}
