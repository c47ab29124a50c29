//! Calls answered and made: the slow machine's two public steps.

ghost use Rattle.std.specs.Prelude.{◌≡◌, ◌↔◌, IsTrue, IfOk, OnOk, OnErr};
ghost use Rattle.dc_plain.specs.Requests.{answer_of, request_of};
ghost use Rattle.dc_plain.specs.Runs.{reply_of, tree_after, Alters, alters};

use crate::failure::Failure;
use crate::plan::Plan;
use crate::{Call, PlainTree, Reply};
use dc_names::NoMemory;
use std::alloc::Global;

impl PlainTree {
    /// Answers a call, and makes its change. After `NoMemory` nothing is changed.
    pub fn apply(&mut self, alloc: Global, call: &Call) -> Result<Reply, NoMemory>
        ensures reply { IfOk result (λ reply.
            answer_of reply ≡ reply_of self.old.limit self.old.tree (request_of call.now)) }
        ensures tree { OnOk result
            (self.new.tree ≡ tree_after self.old.limit self.old.tree (request_of call.now)) }
        ensures limit { self.new.limit ≡ self.old.limit }
        ensures err { OnErr result (self.new ≡ self.old) }
    {
        match self.plan(alloc, call) {
            Ok(Plan::Answer(reply)) => Ok(reply),
            Ok(Plan::Change(change)) => self.carry(alloc, change),
            Err(Failure::Refused(refusal)) => Ok(Reply::Refused(refusal.number())),
            Err(Failure::NoMemory) => Err(NoMemory),
        }
    }

    /// Whether a call would change the tree.
    pub fn alters(&self, alloc: Global, call: &Call) -> Result<bool, NoMemory>
        ensures alters { IfOk result (λ alters.
            IsTrue alters ↔ Alters self.now.limit self.now.tree (request_of call.now)) }
        ensures test { IfOk result (λ it.
            it ≡ alters self.now.limit self.now.tree (request_of call.now)) }
    {
        self.has_change(alloc, call)
    }

    /// Whether a change would be carried out.
    fn has_change(&self, alloc: Global, call: &Call) -> Result<bool, NoMemory>
        ensures { IfOk result (λ changes.
            IsTrue changes ↔ Alters self.now.limit self.now.tree (request_of call.now)) }
    {
        match self.plan(alloc, call) {
            Ok(Plan::Answer(_)) | Err(Failure::Refused(_)) => Ok(false),
            Ok(Plan::Change(_)) => Ok(true),
            Err(Failure::NoMemory) => Err(NoMemory),
        }
    }
}
