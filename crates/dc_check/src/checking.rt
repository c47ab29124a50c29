//! Whether stamps are what one plain tree answers, and whether phase by phase.

ghost use Rattle.std.specs.Prelude.{◌≡◌, ◌≢◌, ◌≤◌, ◌↔◌, IfOk, OnOk, IfErr, length};
ghost use Rattle.dc_plain.specs.Legal.{IsLegal};
ghost use Rattle.dc_names.specs.declared.limits.TheConstants.{MOST_INODES};
ghost use Rattle.dc_check.specs.Stamps.{stamps_of};
ghost use Rattle.dc_check.specs.Judges.{all_numbered, all_phased, all_spans, Blames};
ghost use Rattle.dc_check.specs.Judging.{opening, Passes, spans_in};
ghost use Rattle.dc_check.specs.Verdicts.{AreExplained, IsJudged};

use crate::fault::Fault;
use crate::judge::Judge;
use crate::order::{by_point, first_above, first_falling};
use crate::phases::first_behind;
use crate::stamp::{Judged, Mark, Numbered, PhasedVerdict, Stamp, Verdict};
use dc_names::NoMemory;
use dc_plain::same_tree_tells_whether_trees_are_one;
use std::alloc::Global;

/// Judges stamps that stand by their points. Answers where each of their calls took effect.
fn judge_all(alloc: Global, max_inodes: u64, sorted: &[Numbered]) -> Result<Vec<Mark>, Fault>
    requires least { 1 ≤ max_inodes }
    requires most { max_inodes ≤ MOST_INODES }
    ensures ok { OnOk result (Passes (all_numbered sorted.now) (opening max_inodes)) }
    ensures marks { IfOk result (λ marks.
        all_spans marks.items ≡ spans_in (opening max_inodes) (all_phased sorted.now)) }
    ensures err { IfErr result (λ fault. Blames fault
        → Passes (all_numbered sorted.now) (opening max_inodes) → ⊥) }
{
    let mut judge = Judge::new(alloc, max_inodes)?;
    let mut marks = Vec::new(alloc);
    for numbered in sorted {
        let altered = judge.take(alloc, *numbered)?;
        marks.push(Mark {
            line: numbered.line,
            phase: numbered.phase,
            at: numbered.stamp.at,
            altered,
        })?;
    }
    judge.settle(alloc)?;
    Ok(marks)
}

/// The verdict on a fault of the stamps.
fn verdict_of(fault: Fault, stamps: &[Stamp]) -> Result<Verdict, NoMemory>
    ensures other { IfOk result (λ verdict. verdict ≢ Verdict.Legal) }
    ensures blames { OnOk result (Blames fault) }
{
    match fault {
        Fault::Reply(line) => Ok(Verdict::BadReply(line)),
        Fault::Order(line) => Ok(Verdict::BadOrder(line)),
        Fault::Gap(point) => Ok(Verdict::BadOrder(first_above(stamps, point))),
        Fault::NoMemory => Err(NoMemory),
    }
}

/// Judges stamps with the numbers of their phases, 0 if there is none.
fn judge_stamps(
    alloc: Global,
    max_inodes: u64,
    stamps: &[Stamp],
    phases: &[u64],
) -> Result<Judged, NoMemory>
    requires least { 1 ≤ max_inodes }
    requires most { max_inodes ≤ MOST_INODES }
    ensures { IfOk result (IsJudged max_inodes phases.now (stamps_of stamps.now)) }
{
    same_tree_tells_whether_trees_are_one();
    if let Some(line) = first_falling(alloc, stamps)? {
        return Ok(Judged::Other(Verdict::BadOrder(line)));
    }
    let sorted = by_point(alloc, stamps, phases)?;
    match judge_all(alloc, max_inodes, &sorted) {
        Ok(marks) => Ok(Judged::Legal(marks)),
        Err(fault) => Ok(Judged::Other(verdict_of(fault, stamps)?)),
    }
}

/// Whether one plain tree, in which at most `max_inodes` inodes may live (1 to `MOST_INODES`), explains
/// all of the stamps: each reply is what the call gives after as many changes as its point says, in
/// an order that keeps that of each session.
pub fn check(alloc: Global, max_inodes: u64, stamps: &[Stamp]) -> Result<Verdict, NoMemory>
    requires least { 1 ≤ max_inodes }
    requires most { max_inodes ≤ MOST_INODES }
    // `Legal` exactly of legal stamps.
    ensures { IfOk result (λ verdict.
        (verdict ≡ Verdict.Legal) ↔ IsLegal max_inodes (stamps_of stamps.now)) }
{
    match judge_stamps(alloc, max_inodes, stamps, &[])? {
        Judged::Legal(_) => Ok(Verdict::Legal),
        Judged::Other(verdict) => Ok(verdict),
    }
}

/// Whether one plain tree explains all of the stamps, as `check` says it, and no call took effect before
/// one of an earlier phase. The call of the n-th stamp was made in the phase that the n-th of `phases`
/// numbers. A call that altered the tree comes before all those of a later phase only if their
/// points are higher than its own.
pub fn check_phases(
    alloc: Global,
    max_inodes: u64,
    stamps: &[Stamp],
    phases: &[u64],
) -> Result<PhasedVerdict, NoMemory>
    requires least { 1 ≤ max_inodes }
    requires most { max_inodes ≤ MOST_INODES }
    requires phases { length phases.now ≡ length stamps.now }
    // `Legal` exactly of legal stamps that keep the order of the phases.
    ensures { IfOk result (λ said.
        (said ≡ PhasedVerdict.Legal) ↔ AreExplained max_inodes phases.now stamps.now) }
{
    match judge_stamps(alloc, max_inodes, stamps, phases)? {
        Judged::Legal(marks) => match first_behind(marks)? {
            None => Ok(PhasedVerdict::Legal),
            Some(line) => Ok(PhasedVerdict::BadPhase(line)),
        },
        Judged::Other(verdict) => Ok(PhasedVerdict::of(verdict)),
    }
}
