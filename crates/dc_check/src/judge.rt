//! The judge: it takes stamps by their points, one after the other.

ghost use Rattle.std.specs.Prelude.{◌≡◌, ◌≤◌, ◌↔◌, IsTrue, IfOk, OnOk, IfErr};
ghost use Rattle.dc_plain.specs.OwnCalls.{own_request};
ghost use Rattle.dc_plain.specs.Requests.{answer_of};
ghost use Rattle.dc_plain.specs.Runs.{reply_of};
ghost use Rattle.dc_names.specs.declared.limits.TheConstants.{MOST_INODES};
ghost use Rattle.dc_check.specs.Judges.{judge_of, numbered_of, Blames};
ghost use Rattle.dc_check.specs.Judging.{opening, is_change, IsGood, IsPassed, with_met, IsSettled, settled, Reaches, reached, Takes, taken, alters_at};

use crate::fault::Fault;
use crate::stamp::{Numbered, Stamp};
use crate::tree::QuickTree;
use dc_names::NoMemory;
use dc_plain::Reply;
use std::alloc::Global;

/// The tree after this many changes, and of the stamps with this point the one that alters it, once it
/// is met.
#[derive(Drop)]
pub struct Judge<'a> {
    tree: QuickTree,
    clock: u64,
    change: Option<Numbered<'a>>,
}

/// Whether two replies say the same.
fn is_same(reply: &Reply, other: &Reply) -> bool
    ensures { IsTrue result ↔ (answer_of reply.now ≡ answer_of other.now) }
{
    reply == other
}

impl<'a> Judge<'a> {
    /// Before any stamp.
    pub fn new(alloc: Global, max_inodes: u64) -> Result<Judge<'a>, NoMemory>
        requires least { 1 ≤ max_inodes }
        requires most { max_inodes ≤ MOST_INODES }
        ensures { IfOk result (λ judge. judge_of judge ≡ opening max_inodes) }
    {
        Ok(Judge {
            tree: QuickTree::new(alloc, max_inodes)?,
            clock: 0,
            change: None,
        })
    }

    /// Makes the change that was met, if any, and then judges its reply.
    pub fn settle(&mut self, alloc: Global) -> Result<(), Fault>
        ensures ok { OnOk result (IsSettled (judge_of self.old)) }
        ensures new { OnOk result (judge_of self.new ≡ settled (judge_of self.old)) }
        ensures err { IfErr result (λ fault. Blames fault → IsSettled (judge_of self.old) → ⊥) }
    {
        let Some(change) = self.change else {
            return Ok(());
        };
        self.change = None;
        let reply = self.tree.apply(alloc, &change.stamp.call.as_call())?;
        if is_same(&reply, &change.stamp.reply) {
            Ok(())
        } else {
            Err(Fault::Reply(change.line))
        }
    }

    /// Goes on to a point. From one point to the next there is a change.
    fn reach(&mut self, alloc: Global, at: u64) -> Result<(), Fault>
        ensures ok { OnOk result (Reaches (judge_of self.old) at) }
        ensures new { OnOk result (judge_of self.new ≡ reached (judge_of self.old) at) }
        ensures err { IfErr result (λ fault. Blames fault → Reaches (judge_of self.old) at → ⊥) }
    {
        if at == self.clock {
            return Ok(());
        }
        let altered = self.change.is_some();
        self.settle(alloc)?;
        if !altered || self.clock.checked_add(1) != Some(at) {
            return Err(Fault::Gap(self.clock));
        }
        self.clock = at;
        Ok(())
    }

    /// The fault of a stamp, or else that of the change before it, whose reply isn't judged yet.
    fn first_fault(&mut self, alloc: Global, fault: Fault) -> Fault {
        match self.settle(alloc) {
            Ok(()) => fault,
            Err(earlier) => earlier,
        }
    }

    /// Judges a stamp that doesn't alter the tree, by the reply that its call gives.
    fn judge_read(&mut self, alloc: Global, numbered: Numbered, reply: &Reply) -> Result<(), Fault>
        requires { let stamp = numbered_of numbered in let judge = judge_of self.old in
            answer_of reply.now ≡ reply_of judge.limit judge.tree stamp.request }
        ensures ok { OnOk result (IsPassed (judge_of self.old) (numbered_of numbered.entry)) }
        ensures same { OnOk result (judge_of self.new ≡ judge_of self.old) }
        ensures err { IfErr result (λ fault. Blames fault
            → IsPassed (judge_of self.old) (numbered_of numbered.entry) → ⊥) }
    {
        let Numbered { line, stamp, .. } = numbered;
        if !is_same(reply, &stamp.reply) {
            return Err(self.first_fault(alloc, Fault::Reply(line)));
        }
        match self.change {
            Some(change) if change.stamp.session == stamp.session => {
                Err(self.first_fault(alloc, Fault::Order(line)))
            }
            _ => Ok(()),
        }
    }

    /// Judges a stamp at the point that was reached. Answers whether its call alters the tree.
    fn meet(&mut self, alloc: Global, numbered: Numbered<'a>) -> Result<bool, Fault>
        ensures ok { OnOk result (IsGood (judge_of self.old) (numbered_of numbered.entry)) }
        ensures new { OnOk result (judge_of self.new
            ≡ with_met (judge_of self.old) (numbered_of numbered.entry)) }
        ensures altered { IfOk result (λ altered.
            altered ≡ is_change (judge_of self.old) (numbered_of numbered.entry)) }
        ensures err { IfErr result (λ fault. Blames fault
            → IsGood (judge_of self.old) (numbered_of numbered.entry) → ⊥) }
    {
        if let Some(reply) = self.tree.answer(alloc, &numbered.stamp.call.as_call())? {
            self.judge_read(alloc, numbered, &reply)?;
            return Ok(false);
        }
        if self.change.is_some() {
            return Err(self.first_fault(alloc, Fault::Order(numbered.line)));
        }
        // Its reply is judged as the change is made, since others at this point need the tree as it is.
        self.change = Some(numbered);
        Ok(true)
    }

    /// Judges the next stamp by its point. Answers whether its call alters the tree.
    pub fn take(&mut self, alloc: Global, numbered: Numbered<'a>) -> Result<bool, Fault>
        ensures ok { OnOk result (Takes (judge_of self.old) (numbered_of numbered.entry)) }
        ensures new { OnOk result (judge_of self.new
            ≡ taken (judge_of self.old) (numbered_of numbered.entry)) }
        ensures altered { IfOk result (λ altered.
            altered ≡ alters_at (judge_of self.old) (numbered_of numbered.entry)) }
        ensures err { IfErr result (λ fault. Blames fault
            → Takes (judge_of self.old) (numbered_of numbered.entry) → ⊥) }
    {
        self.reach(alloc, numbered.stamp.at)?;
        self.meet(alloc, numbered)
    }

    /// What the tree gives the call of a stamp at its point, if the judge gets there.
    pub fn due(&mut self, alloc: Global, stamp: &Stamp) -> Result<Reply, Fault>
        ensures ok { OnOk result (Reaches (judge_of self.old) stamp.now.at) }
        ensures reply { IfOk result (λ reply. let judge = reached (judge_of self.old) stamp.now.at in
            answer_of reply ≡ reply_of judge.limit judge.tree (own_request stamp.now.call)) }
    {
        self.reach(alloc, stamp.at)?;
        Ok(self.tree.apply(alloc, &stamp.call.as_call())?)
    }
}
