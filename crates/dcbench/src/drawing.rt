//! Trees that are drawn: names of 1 to 20 bytes, and no bucket with more names than it has rows.

use crate::tree::with;
use crate::work::{Shape, Work};
use dc_names::{BUCKET_ROWS, hash};
use rand_pcg::Pcg32;
use rand_pcg::rand_core::Rng;
use std::alloc::{AllocError, Global};

const LETTERS: &[u8; 36] = b"abcdefghijklmnopqrstuvwxyz0123456789";

/// How often a name is drawn again that finds no row.
const DRAWS: u64 = 64;

/// About how many directories there are above the files.
const MOST_DIRECTORIES: u64 = 256;

/// What stands behind a name that is asked and absent.
pub const ABSENT: &str = ".no";

/// What stands behind the name of a link, whose text is the name without it.
const LINK: &str = ".ln";

/// A directory or a file that was drawn.
#[derive(Drop)]
struct Spot {
    path: Vec<u8>,
    number: u64,
}

/// A tree that is being drawn.
#[derive(Drop)]
struct Drawing {
    alloc: Global,
    shape: Shape,
    rng: Pcg32,
    /// How many rows are taken, by bucket.
    taken: Vec<u64>,
    /// The number of the inode that is made next.
    next: u64,
    lines: Vec<u8>,
}

impl Drawing {
    fn new(alloc: Global, shape: Shape) -> Result<Drawing, AllocError> {
        Ok(Drawing {
            alloc,
            shape,
            rng: Pcg32::new(shape.depth, 54),
            taken: vec![in alloc; 0; shape.buckets as usize]?,
            // The root has the number 1.
            next: 2,
            lines: Vec::new(alloc),
        })
    }

    /// A number below `most`, or 0.
    fn below(&mut self, most: u64) -> u64 {
        u64::from(self.rng.next_u32())
            .checked_rem(most)
            .unwrap_or(0)
    }

    fn letter(&mut self, at: u64) -> u8 {
        LETTERS.get(at as usize).copied().unwrap_or(b'-')
    }

    /// A name that begins with the letters of `index`. What follows them begins with a dash, which is no
    /// letter, so that no two names of one level are the same.
    fn name(&mut self, index: u64) -> Result<Vec<u8>, AllocError> {
        let length = self.below(20);
        let mut name = Vec::new(self.alloc);
        let (mut rest, mut is_spelled) = (index, false);
        for _ in 0..=length.max(letters_of(index)) {
            let at = if rest > 0 || name.is_empty() {
                rest % 36
            } else if is_spelled {
                self.below(36)
            } else {
                // Past the last letter, so a dash.
                is_spelled = true;
                36
            };
            rest /= 36;
            let letter = self.letter(at);
            name.push(letter)?;
        }
        Ok(name)
    }

    /// The bucket of a key.
    fn bucket(&self, number: u64, name: &[u8]) -> usize {
        let at = hash(number, name).checked_rem(self.shape.buckets);
        at.unwrap_or(0) as usize
    }

    /// Whether a row is left for a key.
    fn has_row(&self, number: u64, name: &[u8]) -> bool {
        let taken = self.taken.get(self.bucket(number, name));
        taken.is_none_or(|taken| *taken < BUCKET_ROWS)
    }

    fn take(&mut self, number: u64, name: &[u8]) {
        let at = self.bucket(number, name);
        if let Some(taken) = self.taken.get_mut(at) {
            *taken = taken.saturating_add(1);
        }
    }

    /// Whether a row is left for a name that is drawn, and for the absent one that is asked beside it.
    fn fits(&self, parent: u64, name: &[u8]) -> Result<bool, AllocError> {
        Ok(
            self.has_row(parent, name)
                && (!matches!(self.shape.work, Work::Absent)
                    || self.has_row(parent, &with(self.alloc, name, ABSENT)?)),
        )
    }

    /// A name in a directory whose row is taken.
    fn fitting(&mut self, parent: u64, index: u64) -> Result<Vec<u8>, AllocError> {
        let mut name = self.name(index)?;
        for _ in 0..DRAWS {
            if self.fits(parent, &name)? {
                break;
            }
            name = self.name(index)?;
        }
        self.take(parent, &name);
        if let Work::Absent = self.shape.work {
            let absent = with(self.alloc, &name, ABSENT)?;
            self.take(parent, &absent);
        }
        Ok(name)
    }

    /// Writes a line of some parts.
    fn line(&mut self, parts: &[&[u8]]) -> Result<(), AllocError> {
        for part in parts {
            self.lines.extend_from_slice(part)?;
        }
        self.lines.push(b'\n')?;
        Ok(())
    }

    /// The number of what is made now.
    fn number(&mut self) -> u64 {
        let number = self.next;
        self.next = number.saturating_add(1);
        number
    }

    /// Makes something in a directory.
    fn spot(&mut self, kind: &[u8], parent: &Spot, index: u64) -> Result<Spot, AllocError> {
        let name = self.fitting(parent.number, index)?;
        let mut path = Vec::from_slice(self.alloc, &parent.path)?;
        path.push(b'/')?;
        path.extend_from_slice(&name)?;
        self.line(&[kind, &path])?;
        Ok(Spot {
            path,
            number: self.number(),
        })
    }

    /// Makes this many in the directories above, in turns.
    fn level(&mut self, kind: &[u8], above: &[Spot], count: u64) -> Result<Vec<Spot>, AllocError> {
        let mut here = Vec::new(self.alloc);
        for i in 0..count {
            let at = (i as usize).checked_rem(above.len()).unwrap_or(0);
            if let Some(parent) = above.get(at) {
                here.push(self.spot(kind, parent, i)?)?;
            }
        }
        Ok(here)
    }

    /// Makes a link in the root to each of these, which stand in the root.
    fn link(&mut self, firsts: &[Spot]) -> Result<(), AllocError> {
        for first in firsts {
            let text = first.path.get(1..).unwrap_or(b"");
            let name = with(self.alloc, text, LINK)?;
            self.line(&[b"l ", text, b" /", &name])?;
            self.take(1, &name);
            let number = self.number();
            self.take(number, b"");
        }
        Ok(())
    }

    /// Asks for the paths that lead through the links.
    fn ask_through_links(&mut self, files: &[Spot]) -> Result<(), AllocError> {
        for file in files {
            let path = file.path.get(1..).unwrap_or(b"");
            let end = path.iter().position(|b| *b == b'/');
            let (first, rest) = path.split_at(end.unwrap_or(path.len()));
            self.line(&[b"p /", first, LINK.as_bytes(), rest])?;
        }
        Ok(())
    }

    /// Makes the directories, and answers those of the first level and those of the last.
    fn directories(&mut self) -> Result<(Vec<Spot>, Vec<Spot>), AllocError> {
        let mut above = Vec::new(self.alloc);
        above.push(Spot {
            path: Vec::new(self.alloc),
            number: 1,
        })?;
        let (mut firsts, mut width) = (Vec::new(self.alloc), 1u64);
        let most = MOST_DIRECTORIES.checked_div(self.shape.depth).unwrap_or(2);
        for level in 1..self.shape.depth {
            width = width.saturating_mul(2).min(most.max(2));
            let here = self.level(b"d ", &above, width)?;
            let higher = std::mem::replace(&mut above, here);
            if level == 2 {
                firsts = higher;
            }
        }
        Ok((firsts, above))
    }

    /// Makes files that are asked through links, in the directories of the last level.
    fn linked(&mut self, firsts: &[Spot], above: &[Spot]) -> Result<(), AllocError> {
        let Shape { depth, hot, .. } = self.shape;
        let files = self.level(b"c ", above, hot)?;
        self.link(match depth {
            0 | 1 => &files,
            2 => above,
            _ => firsts,
        })?;
        self.ask_through_links(&files)
    }

    /// Makes the whole tree.
    fn draw(&mut self) -> Result<(), AllocError> {
        let (firsts, above) = self.directories()?;
        if let Work::Links = self.shape.work {
            return self.linked(&firsts, &above);
        }
        self.level(b"f ", &above, self.shape.hot)?;
        Ok(())
    }
}

/// How many letters spell a number at least.
fn letters_of(number: u64) -> u64 {
    match number {
        0..36 => 0,
        36..1_296 => 1,
        1_296..46_656 => 2,
        _ => 3,
    }
}

/// The lines of a tree of this shape.
pub fn draw(alloc: Global, shape: Shape) -> Result<Vec<u8>, AllocError> {
    let mut drawing = Drawing::new(alloc, shape)?;
    drawing.draw()?;
    Ok(drawing.lines)
}
