//! Changes of the tree, from the plan to the answer.

ghost use Rattle.std.specs.Prelude.{◌≡◌, ◌<◌, length, IsOk, IfOk, IfSome, OnErr};
ghost use Rattle.dc_events.specs.Rows.{most};
ghost use Rattle.dc_ops.specs.Asked.{IsChange};
ghost use Rattle.dc_ops.specs.Knowing.{IsKnownOn};
ghost use Rattle.dc_ops.specs.Plans.{CallTakesNoMemory, Plans};
ghost use Rattle.dc_ops.specs.Settled.{IsPlanned};
ghost use Rattle.dc_plain.specs.IsWellFormed.{IsWellFormed};
ghost use Rattle.dc_plain.specs.Requests.{request_of};
ghost use Rattle.dc_rows.specs.Changes.{OnlyWrites};
ghost use Rattle.dc_rows.specs.Guards.{kept_by, seat_of};
ghost use Rattle.dc_rows.specs.Outcomes.{AlteredHeld, IsBack, MakesHeld};
ghost use Rattle.dc_rows.specs.Refills.{Retells};
ghost use Rattle.dc_table.specs.Changes.{IsTaken, tree_now};
ghost use Rattle.dc_table.specs.Passes.{view, share};

use crate::fault::ChangeFault;
use crate::guard::Guard;
use crate::shutting::{refill_keys, shut_keys};
use dc_names::NoMemory;
use dc_ops::{Known, Plan, carry, plan_knowing};
use dc_plain::{
    Call, MOST_TOUCHED, Reply, calls_touch_the_listed_keys, opening_tree_is_well_formed,
    operations_keep_trees_well_formed, untouched_facts_stay,
};
use dc_row::words_have_the_fact_they_spell;
use dc_table::{Guarded, MOST_COUNT, Pass, Wakes};
use std::alloc::Global;

impl<'t> Guard<'t> {
    /// Makes a change, answers its reply and how many calls had altered the tree before, gives the lock
    /// back, and hands the pass back. `Spent` if it would alter the tree for more than the 2^62nd time,
    /// `NoMemory` if memory was refused: then nothing has changed. A change that is refused, an
    /// `Unlink`, a `Rmdir` and an exchange take no memory.
    pub fn change<W: Wakes>(
        self,
        alloc: Global,
        call: &Call<'_>,
    ) -> (&'t mut Pass, Result<(Reply, u64), ChangeFault>)
        requires taken { IsTaken (view (seat_of self)) }
        requires change { IsChange call.now }
        ensures back { IsBack self.entry result.0 }
        ensures made { MakesHeld self.entry result.0.now (request_of call.now) result.1 }
    {
        self.change_knowing::<W>(alloc, call, None)
    }

    /// Makes a change, as `change`, for a caller that knows where a path leads on the tree. The tree isn't
    /// asked for the directory of a name whose path is that one and the name.
    pub fn change_knowing<W: Wakes>(
        self,
        alloc: Global,
        call: &Call<'_>,
        known: Option<Known<'_>>,
    ) -> (&'t mut Pass, Result<(Reply, u64), ChangeFault>)
        requires taken { IsTaken (view (seat_of self)) }
        requires change { IsChange call.now × IfSome known (IsKnownOn (kept_by self).store) }
        ensures back { IsBack self.entry result.0 }
        ensures made { MakesHeld self.entry result.0.now (request_of call.now) result.1 }
    {
        let planned = self.plan(call, known);
        self.change_planned::<W>(alloc, call, planned)
    }

    /// The plan of a change on the tree of this hold, as `dc_ops::plan_knowing`, for `change_planned`. It
    /// takes no memory.
    pub fn plan<'c>(&self, call: &Call<'c>, known: Option<Known<'_>>) -> Result<Plan<'c>, Reply>
        requires change { IsChange call.now × IfSome known (IsKnownOn (kept_by self.now).store) }
        ensures { let kept = kept_by self.now in
            IsPlanned kept.max_inodes kept.store (request_of call.now) result }
    {
        plan_knowing(self.store(), call, self.guarded.max_inodes, known)
    }

    /// Makes a change, as `change`, for a caller that has its plan.
    pub fn change_planned<W: Wakes>(
        mut self,
        alloc: Global,
        call: &Call<'_>,
        planned: Result<Plan<'_>, Reply>,
    ) -> (&'t mut Pass, Result<(Reply, u64), ChangeFault>)
        requires taken { IsTaken (view (seat_of self)) }
        requires planned { let kept = kept_by self in
            IsPlanned kept.max_inodes kept.store (request_of call.now) planned }
        ensures back { IsBack self.entry result.0 }
        ensures made { MakesHeld self.entry result.0.now (request_of call.now) result.1 }
    {
        opening_tree_is_well_formed();
        operations_keep_trees_well_formed();
        let at = self.clock();
        let plan = match planned {
            Ok(plan) => plan,
            Err(reply) => return (self.answer::<W>(call), Ok((reply, at))),
        };
        if at >= MOST_COUNT {
            return (self.give::<W>(), Err(ChangeFault::Spent));
        }
        let altered = self.alter(alloc, call, plan);
        let pass = self.give::<W>();
        match altered {
            Ok(reply) => (pass, Ok((reply, at))),
            Err(NoMemory) => (pass, Err(ChangeFault::NoMemory)),
        }
    }

    /// Carries a plan out, with the rows whose keys it touches shut meanwhile. After `NoMemory` they tell
    /// what they told before.
    fn alter(&mut self, alloc: Global, call: &Call<'_>, plan: Plan<'_>) -> Result<Reply, NoMemory>
        requires well { IsWellFormed (tree_now (seat_of self.old)) }
        requires plans { let p = seat_of self.old in
            Plans (share p).limit (tree_now p) (request_of call.now) plan }
        requires early { length (view (seat_of self.old)).hold.history < most }
        ensures same_reference { self.new.holder.pass.ghost_name ≡ self.old.holder.pass.ghost_name }
        ensures ok { IfOk result (AlteredHeld self.old self.new (request_of call.now)) }
        ensures err { OnErr result (OnlyWrites (seat_of self.old) (seat_of self.new)) }
        ensures without_memory { CallTakesNoMemory (request_of call.now) → IsOk result }
        ensures rows { Retells self.old self.new (request_of call.now) }
    {
        calls_touch_the_listed_keys();
        untouched_facts_stay();
        words_have_the_fact_they_spell();
        let holder = &mut self.holder;
        let kept: &mut Guarded = &mut self.guarded;
        let keys = plan.keys();
        let keys = keys.as_slice();
        let mut rows = [None; MOST_TOUCHED];
        shut_keys(holder, kept, keys, &mut rows);
        // A reader that finds a row even must find it true. So the rows of what changes stay odd from before
        // the tree changes until they tell of the new one, or of the old one if that stays.
        match carry(alloc, &mut kept.store, plan) {
            Ok(reply) => {
                holder.commit(call);
                kept.clock += 1;
                refill_keys(holder, kept, keys, &rows);
                Ok(reply)
            }
            Err(NoMemory) => {
                refill_keys(holder, kept, keys, &rows);
                Err(NoMemory)
            }
        }
    }
}
