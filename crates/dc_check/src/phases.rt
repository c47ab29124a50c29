//! Calls that took effect before one of an earlier phase.

ghost use Rattle.std.specs.Prelude.{◌≡◌, ◌↔◌, None, IfOk};
ghost use Rattle.dc_lang.specs.Spans.{InPhases};
ghost use Rattle.dc_check.specs.Judges.{all_spans, end_of};
ghost use Rattle.dc_check.specs.Reaches.{IsByPhase, with_mark};

use crate::stamp::Mark;
use dc_names::NoMemory;

/// The least point of a call that comes after this one: one above its own if it altered the tree.
fn end_of(mark: &Mark) -> u128
    ensures { result ≡ end_of mark.now }
{
    let at = mark.at as u128;
    if mark.altered { at + 1 } else { at }
}

/// How far calls went that stand by their phases.
#[derive(Clone, Copy)]
struct Reach {
    /// The phase of the last.
    phase: u64,
    /// The greatest end of those in earlier phases.
    earlier: u128,
    /// The greatest end of all.
    all: u128,
}

impl Reach {
    /// With one more call, whose phase isn't below that of the last.
    fn with(self, mark: &Mark) -> Reach
        ensures { result ≡ with_mark self mark.now }
    {
        Reach {
            phase: mark.phase,
            earlier: if self.phase < mark.phase {
                self.all
            } else {
                self.earlier
            },
            all: self.all.max(end_of(mark)),
        }
    }
}

/// The first line, if the calls stand by their phases.
fn first_reached(marks: &[Mark]) -> Option<u64>
    requires { IsByPhase marks.now }
    ensures { (result ≡ None) ↔ InPhases (all_spans marks.now) }
{
    let mut first: Option<u64> = None;
    let mut reach = Reach {
        phase: 0,
        earlier: 0,
        all: 0,
    };
    for mark in marks {
        reach = reach.with(mark);
        if (mark.at as u128) < reach.earlier {
            first = Some(match first {
                Some(line) => line.min(mark.line),
                None => mark.line,
            });
        }
    }
    first
}

/// The first line whose call took effect before one of an earlier phase.
pub fn first_behind(mut marks: Vec<Mark>) -> Result<Option<u64>, NoMemory>
    ensures { IfOk result (λ line. (line ≡ None) ↔ InPhases (all_spans marks.items)) }
{
    marks.sort_by_key(|mark| mark.phase)?;
    Ok(first_reached(&marks))
}
