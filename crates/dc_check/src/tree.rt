//! The tree that stamps are judged by: a store that is asked as the cache asks its own.

ghost use Rattle.std.specs.Prelude.{◌≡◌, is_none, IfSome, IfOk, IfErr, OnOk};
ghost use Rattle.dc_plain.specs.Requests.{answer_of, request_of};
ghost use Rattle.dc_plain.specs.Runs.{alters, reply_of, tree_after};
ghost use Rattle.dc_plain.specs.Trees.{empty_tree};
ghost use Rattle.dc_ops.specs.Plans.{Plans};
ghost use Rattle.dc_ops.specs.Settled.{DeclinesCall};

use dc_names::NoMemory;
use dc_ops::{Plan, ask, carry, plan, seek};
use dc_plain::{Call, Reply, Sort};
use dc_store::SlabStore;
use std::alloc::Global;
use std::marker::Model;

/// A plain tree in which this many inodes may live, held as the cache holds its own: no call goes over all
/// of it.
#[derive(Drop)]
pub struct QuickTree {
    store: SlabStore,
    limit: u64,
}

impl Model for QuickTree {
    ghost use Rattle.dc_plain.specs.Machines.{Machine};

    ghost Value = { Machine };

    ghost view = { λ t. record { tree = t.store; limit = t.limit } };
}

impl QuickTree {
    /// The root directory alone.
    pub fn new(alloc: Global, limit: u64) -> Result<QuickTree, NoMemory>
        ensures { IfOk result (λ made. made ≡ record { tree = empty_tree; limit = limit }) }
    {
        let store = SlabStore::new(alloc)?;
        Ok(QuickTree { store, limit })
    }

    /// The plan of a call that alters the tree, or the reply of another.
    pub fn decide<'c>(
        &self,
        alloc: Global,
        call: &Call<'c>,
    ) -> Result<Result<Plan<'c>, Reply>, NoMemory>
        ensures planned { IfOk result (λ found.
            IfOk found (Plans self.now.limit self.now.tree (request_of call.now))) }
        ensures declined { IfOk result (λ found.
            IfErr found (DeclinesCall self.now.limit self.now.tree call.now)) }
    {
        match call.sort() {
            Sort::Change => Ok(plan(&self.store, call, self.limit)),
            Sort::Sought => Ok(Err(seek(&self.store, call))),
            Sort::Told => Ok(Err(ask(alloc, &self.store, call)?)),
        }
    }

    /// The reply of a call that leaves the tree as it is. `None` of one that alters it.
    pub fn answer(&self, alloc: Global, call: &Call) -> Result<Option<Reply>, NoMemory>
        ensures reply { IfOk result (λ found. IfSome found (λ reply.
            answer_of reply ≡ reply_of self.now.limit self.now.tree (request_of call.now))) }
        ensures test { IfOk result (λ found.
            is_none found ≡ alters self.now.limit self.now.tree (request_of call.now)) }
    {
        match self.decide(alloc, call)? {
            Ok(_) => Ok(None),
            Err(reply) => Ok(Some(reply)),
        }
    }

    /// Answers a call, and makes its change.
    pub fn apply(&mut self, alloc: Global, call: &Call) -> Result<Reply, NoMemory>
        ensures reply { IfOk result (λ reply.
            answer_of reply ≡ reply_of self.old.limit self.old.tree (request_of call.now)) }
        ensures tree { OnOk result
            (self.new.tree ≡ tree_after self.old.limit self.old.tree (request_of call.now)) }
        ensures limit { self.new.limit ≡ self.old.limit }
    {
        match self.decide(alloc, call)? {
            Ok(plan) => carry(alloc, &mut self.store, plan),
            Err(reply) => Ok(reply),
        }
    }
}
