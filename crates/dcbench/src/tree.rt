//! The lines of a tree: how they are read, made in the cache, and looked up once.
//!
//! `d PATH` is a directory, `c PATH` a file, `f PATH` a file that is asked, `l TEXT PATH` a symbolic
//! link, `p PATH` a path that is asked.

ghost use Rattle.std.specs.Prelude.{IfSome};
ghost use Rattle.dc_cache.specs.Passes.{Fits, IsChange};

use crate::fault::Fault;
use crate::tally::Tally;
use dc_cache::{Call, ChangeFault, Dcache, Follow, Pass, PathText, ROOT, Reply, parse};
use std::alloc::{AllocError, Global};
use std::sync::Wait;

/// The bytes before the first space, and those after it.
fn words_of(bytes: &[u8]) -> Option<(&[u8], &[u8])> {
    let at = bytes.iter().position(|b| *b == b' ')?;
    let (first, rest) = bytes.split_at(at);
    Some((first, rest.get(1..)?))
}

/// What a line makes.
fn made_by(line: &[u8]) -> Option<Call<'_>>
    ensures { IfSome result IsChange }
{
    let base = ROOT;
    match line {
        [b'd', b' ', path @ ..] => Some(Call::Mkdir { base, path }),
        [b'f' | b'c', b' ', path @ ..] => Some(Call::Create { base, path }),
        [b'l', b' ', rest @ ..] => {
            let (text, path) = words_of(rest)?;
            Some(Call::Symlink { base, text, path })
        }
        _ => None,
    }
}

/// The path that a line asks for.
fn asked_by(line: &[u8]) -> Option<&[u8]> {
    match line {
        [b'f' | b'p', b' ', path @ ..] => Some(path),
        _ => None,
    }
}

/// Makes what a call makes, and says whether the tree took it.
fn make<R: Wait>(
    rt: &R,
    alloc: Global,
    cache: &Dcache,
    pass: &mut Pass,
    call: &Call<'_>,
) -> Result<bool, ChangeFault>
    requires pass { Fits cache.now pass.old }
    requires change { IsChange call.now }
    ensures { Fits cache.now pass.new }
{
    let made = cache.change(rt, alloc, pass, call)?;
    Ok(!matches!(made.reply, Reply::Refused(_)))
}

/// Makes a change, and counts it. One that isn't made counts as a wrong answer.
pub fn change<R: Wait>(
    rt: &R,
    alloc: Global,
    cache: &Dcache,
    pass: &mut Pass,
    call: &Call<'_>,
    tally: &mut Tally,
)
    requires pass { Fits cache.now pass.old }
    requires change { IsChange call.now }
    ensures { Fits cache.now pass.new }
{
    let is_made = make(rt, alloc, cache, pass, call).unwrap_or(false);
    tally.changes = tally.changes.saturating_add(1);
    tally.wrong = tally.wrong.saturating_add(u64::from(!is_made));
}

/// Makes what a line stands for. It fails if the line is none, or the tree refuses it.
fn plant_line<R: Wait>(
    rt: &R,
    alloc: Global,
    cache: &Dcache,
    pass: &mut Pass,
    line: &[u8],
    number: u64,
) -> Result<(), Fault>
    requires { Fits cache.now pass.old }
    ensures { Fits cache.now pass.new }
{
    match made_by(line) {
        Some(call) => match make(rt, alloc, cache, pass, &call)? {
            true => Ok(()),
            false => Err(Fault::BadLine(number)),
        },
        None if asked_by(line).is_some() => Ok(()),
        None => Err(Fault::BadLine(number)),
    }
}

/// Makes the tree of some lines.
pub fn plant<R: Wait>(
    rt: &R,
    alloc: Global,
    cache: &Dcache,
    pass: &mut Pass,
    lines: &[&[u8]],
) -> Result<(), Fault>
    requires { Fits cache.now pass.old }
    ensures { Fits cache.now pass.new }
{
    let mut number = 0u64;
    for line in lines {
        number = number.saturating_add(1);
        plant_line(rt, alloc, cache, pass, line, number)?;
    }
    Ok(())
}

/// The lines of some bytes that are not empty.
pub fn lines_in(alloc: Global, bytes: &[u8]) -> Result<Vec<&[u8]>, AllocError> {
    let lines = bytes.split(|b| *b == b'\n');
    lines.filter(|line| !line.is_empty()).collect(alloc)
}

/// The paths that some lines ask for.
pub fn asked_in<'a>(alloc: Global, lines: &[&'a [u8]]) -> Result<Vec<&'a [u8]>, Fault> {
    let mut asked = Vec::new(alloc);
    for line in lines {
        if let Some(path) = asked_by(line) {
            asked.push(path)?;
        }
    }
    if asked.is_empty() {
        return Err(Fault::NoPaths);
    }
    Ok(asked)
}

/// A name or a path with something behind it.
pub fn with(alloc: Global, path: &[u8], ending: &str) -> Result<Vec<u8>, AllocError> {
    let mut text = Vec::from_slice(alloc, path)?;
    text.extend_from_slice(ending.as_bytes())?;
    Ok(text)
}

/// A path with something behind it, and a number but for 0.
fn ending_in(alloc: Global, path: &[u8], ending: &str, number: u64) -> Result<Vec<u8>, AllocError> {
    match number {
        0 => with(alloc, path, ending),
        _ => with(alloc, path, &format!(in alloc; "{ending}{number}")?),
    }
}

/// Each path with something behind it, `count` times over with a number from 0.
pub fn extended(
    alloc: Global,
    paths: &[&[u8]],
    ending: &str,
    count: u64,
) -> Result<Vec<Vec<u8>>, AllocError> {
    let mut all = Vec::new(alloc);
    'counts: for i in 0..count {
        for path in paths {
            all.push(ending_in(alloc, path, ending, i)?)?;
        }
    }
    Ok(all)
}

/// The texts that are paths.
pub fn parsed<'a>(alloc: Global, texts: &'a [Vec<u8>]) -> Result<Vec<PathText<'a>>, Fault> {
    let mut paths = Vec::new(alloc);
    for text in texts {
        if let Ok(path) = parse(text) {
            paths.push(path)?;
        }
    }
    if paths.is_empty() {
        return Err(Fault::NoPaths);
    }
    Ok(paths)
}

/// Looks each path up, which fills the rows that it wants.
pub fn warm<R: Wait>(rt: &R, alloc: Global, cache: &Dcache, pass: &mut Pass, paths: &[PathText<'_>])
    requires { Fits cache.now pass.old }
    ensures { Fits cache.now pass.new }
{
    for path in paths {
        let _ = cache.look(rt, alloc, pass, ROOT, path.bytes(), Follow::Yes);
    }
}
