//! A finder over a table, which the tests of walks and of places ask.

ghost use Rattle.std.specs.Prelude.{◌≡◌, option_map, refl};
ghost use Rattle.std.proofs.Common.{sym, subst, ◌∙◌};
ghost use Rattle.dc_plain.specs.Tellers.{Extends};
ghost use Rattle.dc_tree_tests.specs.Tables.{target_in, parent_in, text_in, said_by};

mod places;
mod trails;
mod walks;

use arrayvec::ArrayVec;
use dc_names::{Kind, Part, parse};
use dc_resolve::Finder;

/// A name in a directory, and where it leads.
type Row<'a> = (u64, &'a [u8], (u64, Kind));

/// Where a name leads by rows.
fn target_in(rows: &[Row<'_>], dir: u64, name: &[u8]) -> Option<(u64, Kind)>
    ensures { result ≡ target_in rows.now dir name.now }
{
    rows.iter()
        .find(|row| row.0 == dir && row.1 == name)
        .map(|row| row.2)
}

/// Where a directory's dot-dot leads by pairs.
fn parent_in(parents: &[(u64, u64)], dir: u64) -> Option<u64>
    ensures { result ≡ parent_in parents.now dir }
{
    parents.iter().find(|up| up.0 == dir).map(|up| up.1)
}

/// The text of a link by pairs.
fn text_in<'a>(texts: &[(u64, &'a [u8])], number: u64) -> Option<&'a [u8]>
    ensures { option_map (λ text. text.now) result ≡ text_in texts.now number }
{
    texts
        .iter()
        .find(|link| link.0 == number)
        .map(|link| link.1)
}

/// Entries, parents and texts of links, that stay as they are.
#[derive(Clone, Copy)]
struct Table<'a> {
    rows: &'a [Row<'a>],
    parents: &'a [(u64, u64)],
    texts: &'a [(u64, &'a [u8])],
}

/// A question: a number with the first byte of a name, `.` for dot-dot, or `@` for a text.
type Asked = (u64, u8);

/// The text of a link is none, or no path.
#[derive(Drop)]
struct NoPath;

/// Answers from a table, and notes what is asked: a name by its first byte, a text as `@`.
#[derive(Drop)]
struct Fixed<'a> {
    table: Table<'a>,
    asked: ArrayVec<Asked, 32>,
}

impl Fixed<'_> {
    fn note(&mut self, number: u64, what: u8)
        ensures table { self.new.table ≡ self.old.table }
    {
        let _ = self.asked.try_push((number, what));
    }
}

fn first_byte(part: Part<'_>) -> u8 {
    match part {
        Part::Normal(name) => *name.bytes().first().unwrap_or(&0),
        Part::Dot | Part::DotDot => b'.',
    }
}

impl<'a> Finder for Fixed<'a> {
    type Text = &'a [u8];

    type Stop = NoPath;

    ghost said = { λ fixed. said_by fixed.table.rows.now fixed.table.parents.now fixed.table.texts.now };

    ghost becomes = { λ f g. g.table ≡ f.table };

    ghost stops = { λ f g why. g.table ≡ f.table };

    ghost may_ask = { λ f number label. Unit {0} };

    ghost may_spend = { λ f n. Unit {0} };

    ghost link_bytes = { 0 };

    fn find(&mut self, dir: u64, part: Part<'_>) -> Result<Option<(u64, Kind)>, NoPath> {
        self.note(dir, first_byte(part));
        match part {
            Part::Normal(name) => Ok(target_in(self.table.rows, dir, name.bytes())),
            Part::DotDot => Ok(parent_in(self.table.parents, dir).map(|up| (up, Kind::Dir))),
            Part::Dot => unreachable!(),
        }
    }

    fn link_text(&mut self, number: u64) -> Result<&'a [u8], NoPath> {
        self.note(number, b'@');
        match text_in(self.table.texts, number) {
            Some(text) if parse(text).is_ok() => Ok(text),
            _ => Err(NoPath),
        }
    }

    ghost stays = { λ f. refl };

    ghost goes_on = { λ f g h p q. q ∙ p };

    ghost stops_later = { λ f g h why p q. q ∙ p };

    ghost keeps = { λ f g p. subst (λ t. Extends (said_by f.table.rows.now f.table.parents.now f.table.texts.now) (said_by t.rows.now t.parents.now t.texts.now)) (sym p) (record { entry = λ d label found told. told; text = λ n bytes told. told }) };

    ghost spends_less = { λ f a b may. may };
}

static ROWS: [Row<'static>; 22] = [
    (1, b"d", (2, Kind::Dir)),
    (2, b"f", (3, Kind::File)),
    (2, b"e", (4, Kind::Dir)),
    (1, b"r", (10, Kind::Link)),
    (2, b"a", (11, Kind::Link)),
    (2, b"p", (12, Kind::Link)),
    (1, b"l", (13, Kind::Link)),
    (1, b"x", (14, Kind::Link)),
    (2, b"q", (15, Kind::Link)),
    (2, b"s", (16, Kind::Link)),
    (1, b"bad", (17, Kind::Link)),
    (1, b"c1", (21, Kind::Link)),
    (1, b"c2", (22, Kind::Link)),
    (1, b"c3", (23, Kind::Link)),
    (1, b"c4", (24, Kind::Link)),
    (1, b"c5", (25, Kind::Link)),
    (1, b"c6", (26, Kind::Link)),
    (1, b"c7", (27, Kind::Link)),
    (1, b"c8", (28, Kind::Link)),
    (1, b"c9", (29, Kind::Link)),
    (1, &[b'n'; 255], (30, Kind::File)),
    (4, b"up", (31, Kind::Link)),
];

static PARENTS: [(u64, u64); 3] = [(1, 1), (2, 1), (4, 2)];

static TEXTS: [(u64, &[u8]); 17] = [
    (10, b"d/e/"),
    (11, b"/d/e"),
    (12, b"e/../f"),
    (13, b"l"),
    (14, b"none"),
    (15, b"f"),
    (16, b"f/"),
    (17, b""),
    (21, b"d"),
    (22, b"c1"),
    (23, b"c2"),
    (24, b"c3"),
    (25, b"c4"),
    (26, b"c5"),
    (27, b"c6"),
    (28, b"c7"),
    (29, b"c8"),
];

fn new_fixed<'a>(
    rows: &'a [Row<'a>],
    parents: &'a [(u64, u64)],
    texts: &'a [(u64, &'a [u8])],
) -> Fixed<'a> {
    Fixed {
        table: Table {
            rows,
            parents,
            texts,
        },
        asked: ArrayVec::new(),
    }
}
