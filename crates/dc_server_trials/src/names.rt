//! Paths, names, hashes and words, with values from outside.

ghost use Rattle.std.specs.Prelude.{◌≡◌, IfOk, map};
ghost use Rattle.dc_names.specs.Names.{part_shown};
ghost use Rattle.dc_names.specs.Paths.{parts_of};

use dc_names::{
    Last, Name, Part, PathText, Refusal, TextFault, first_part_hashed, hash, no_piece_is_longer,
    pack, pack_from, parse, parts_are_names_or_dots, unpack,
};
use std::alloc::{AllocError, Global};
use std::test::Fail;

/// The components in one list.
fn parts_in<'a>(alloc: Global, path: &PathText<'a>) -> Result<Vec<Part<'a>>, AllocError>
    ensures { IfOk result (λ parts. map part_shown parts.items ≡ parts_of path.now.bytes.now) }
{
    path.components().collect(alloc)
}

/// A component as its path spells it.
fn spelled<'a>(part: &Part<'a>) -> &'a [u8] {
    match part {
        Part::Normal(name) => name.bytes(),
        Part::Dot => b".",
        Part::DotDot => b"..",
    }
}

/// The components of the path that is split.
static PARTS: [&[u8]; 5] = [b"a", b".", b"bc", b"..", b"..."];

/// Whether components are those of the path that is split.
fn are_parts(parts: &[Part<'_>]) -> bool {
    for (at, part) in parts.iter().enumerate() {
        match PARTS.get(at) {
            Some(text) if spelled(part) == *text => {}
            _ => return false,
        }
    }
    parts.len() == PARTS.len()
}

#[test]
fn splits_a_path(rt: HostRuntime) -> Result<(), Fail> {
    parts_are_names_or_dots();
    let path = parse(b"//a/.//bc/../...")?;
    assert!(rt; are_parts(&parts_in(rt.alloc(), &path)?));
    Ok(())
}

/// Texts, and why they are no paths, if so.
static TEXTS: [(&[u8], Option<TextFault>); 7] = [
    (b"", Some(TextFault::Empty)),
    (b"a\0b", Some(TextFault::Zero)),
    (&[b'a'; 256], Some(TextFault::Long)),
    (&[0; 256], Some(TextFault::Long)),
    (&[b'/'; 4096], Some(TextFault::Long)),
    (&[b'/'; 4095], None),
    (&[b'a'; 255], None),
];

#[test]
fn tells_the_first_fault(rt: HostRuntime) {
    no_piece_is_longer();
    for (text, fault) in TEXTS.iter() {
        assert!(rt; parse(text).err() == *fault, "{fault:?}");
    }
    assert!(rt; TextFault::Long.number() == 36);
}

/// Paths, and whether they are absolute and end in a slash.
static SLASHES: [(&[u8], bool, bool); 5] = [
    (b"/", true, false),
    (b"//", true, false),
    (b"a/", false, true),
    (b"/a//", true, true),
    (b"a/b", false, false),
];

/// Whether a text is a path that has these slashes.
fn has_slashes(text: &[u8], absolute: bool, slash: bool) -> bool {
    let Ok(path) = parse(text) else {
        return false;
    };
    let same = PathText::known(path.bytes()).bytes() == text;
    same && path.is_absolute() == absolute && path.has_end_slash() == slash
}

#[test]
fn reads_the_slashes(rt: HostRuntime) {
    for (text, absolute, slash) in SLASHES.iter() {
        assert!(rt; has_slashes(text, *absolute, *slash), "{text:?}");
    }
}

/// Bytes, and whether they are a name.
static NAMES: [(&[u8], bool); 10] = [
    (b"a", true),
    (b"...", true),
    (b" ", true),
    (&[255; 255], true),
    (b"", false),
    (b".", false),
    (b"..", false),
    (b"a/b", false),
    (b"a\0", false),
    (&[b'a'; 256], false),
];

#[test]
fn knows_a_name(rt: HostRuntime) {
    for (bytes, want) in NAMES.iter() {
        assert!(rt; Name::new(bytes).is_some() == *want, "{bytes:?}");
    }
}

static REFUSALS: [(Refusal, u64, &str); 12] = [
    (Refusal::NotPermitted, 1, "EPERM"),
    (Refusal::NotFound, 2, "ENOENT"),
    (Refusal::Busy, 16, "EBUSY"),
    (Refusal::Exists, 17, "EEXIST"),
    (Refusal::NotDirectory, 20, "ENOTDIR"),
    (Refusal::IsDirectory, 21, "EISDIR"),
    (Refusal::Invalid, 22, "EINVAL"),
    (Refusal::NoSpace, 28, "ENOSPC"),
    (Refusal::TooManyNames, 31, "EMLINK"),
    (Refusal::NameTooLong, 36, "ENAMETOOLONG"),
    (Refusal::NotEmpty, 39, "ENOTEMPTY"),
    (Refusal::TooManyLinks, 40, "ELOOP"),
];

/// Numbers of none.
static NO_REFUSALS: [u64; 4] = [0, 3, 23, u64::MAX];

/// Whether a refusal has this number and this name, both ways.
fn is_numbered(refusal: Refusal, number: u64, symbol: &str) -> bool {
    refusal.number() == number && refusal.name() == symbol && Refusal::of(number) == Some(refusal)
}

/// Whether a refusal has this number and this name, which it is printed as.
fn is_named(
    alloc: Global,
    refusal: Refusal,
    number: u64,
    symbol: &str,
) -> Result<bool, AllocError> {
    let printed = refusal.to_string(alloc)?;
    Ok(printed.as_str() == symbol && is_numbered(refusal, number, symbol))
}

#[test]
fn names_refusals_as_linux_does(rt: HostRuntime) -> Result<(), Fail> {
    for (refusal, number, symbol) in REFUSALS.iter() {
        assert!(rt;
            is_named(rt.alloc(), *refusal, *number, symbol)?,
            "{symbol}"
        );
    }
    Ok(())
}

#[test]
fn knows_what_is_no_refusal(rt: HostRuntime) {
    for number in NO_REFUSALS.iter() {
        assert!(rt; Refusal::of(*number).is_none(), "{number}");
    }
    assert!(rt; Refusal::from(TextFault::Zero) == Refusal::Invalid);
}

/// Whether a name that ends a path is what is wanted there.
fn is_wanted(name: Name<'_>) -> bool {
    Last::from(Part::Normal(name)).name_or(Refusal::Busy) == Ok(name)
}

/// Whether the root that ends a path is refused, and dot and dot-dot are known there.
fn are_no_names() -> bool {
    Last::Root.name_or(Refusal::Busy) == Err(Refusal::Busy)
        && Last::from(Part::Dot) == Last::Dot
        && Last::from(Part::DotDot) == Last::DotDot
}

/// Whether an end of a path that is no name has this refusal.
fn is_refused(last: &Last<'_>, refusal: Refusal) -> bool {
    last.name_or_each(Refusal::Busy, Refusal::Invalid, Refusal::NotEmpty) == Err(refusal)
}

#[test]
fn wants_a_name_at_the_end(rt: HostRuntime) {
    assert!(rt; Name::new(b"a").is_some_and(is_wanted) && are_no_names());
    assert!(rt; is_refused(&Last::Root, Refusal::Busy));
    assert!(rt; is_refused(&Last::Dot, Refusal::Invalid));
    assert!(rt; is_refused(&Last::DotDot, Refusal::NotEmpty));
}

/// Directories, names in them, and their hashes, modulo 1,024.
static HASHES: [(u64, &[u8], u64); 3] = [(1, b"a", 959), (2, b"..", 767), (2, b"", 519)];

#[test]
fn hashes_numbers_and_bytes(rt: HostRuntime) {
    for (dir, name, want) in HASHES.iter() {
        assert!(rt; hash(*dir, name) % 1024 == *want, "{name:?}");
    }
}

/// A component, what follows it, and its hash in a directory, modulo 1,024.
type Hashed<'a> = (&'a [u8], &'a [u8], u64);

fn hashed<'a>(dir: u64, path: &PathText<'a>) -> Option<Hashed<'a>> {
    let (part, rest, found) = first_part_hashed(dir, path.bytes())?;
    Some((spelled(&part), rest, found % 1024))
}

/// Whether a text is a path whose first component comes with this.
fn is_hashed(dir: u64, text: &[u8], want: &Option<Hashed<'_>>) -> bool {
    match parse(text) {
        Ok(path) => hashed(dir, &path) == *want,
        Err(_) => false,
    }
}

static HASHED: [(u64, &[u8], Option<Hashed<'static>>); 3] = [
    (1, b"//a/..", Some((b"a", b"/..", 959))),
    (2, b"/..", Some((b"..", b"", 767))),
    (2, b"//", None),
];

#[test]
fn splits_and_hashes_at_once(rt: HostRuntime) {
    for (dir, path, want) in HASHED.iter() {
        assert!(rt; is_hashed(*dir, path, want), "{path:?}");
    }
}

#[test]
fn packs_the_first_byte_lowest(rt: HostRuntime) {
    assert!(rt; pack(b"usr") == 7500661 && pack_from(b"/etc/usr", 5) == 7500661);
    assert!(rt; unpack(6565678) == *b"./d\0\0\0\0\0");
}
