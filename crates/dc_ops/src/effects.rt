//! Plans carried out.

ghost use Rattle.std.specs.Prelude.{◌≡◌, IfOk, IsOk, OnOk, OnErr};
ghost use Rattle.dc_plain.specs.Requests.{answer_of};
ghost use Rattle.dc_ops.specs.Plans.{effect, CanCarry, PlanTakesNoMemory};

use crate::Plan;
use dc_names::NoMemory;
use dc_plain::Reply;
use dc_store::Store;
use std::alloc::Global;

/// Carries a plan out on the store that it was made for. After `NoMemory` the store is unchanged; an
/// entry that goes and two that swap take no memory.
pub fn carry<S: Store>(alloc: Global, store: &mut S, plan: Plan<'_>) -> Result<Reply, NoMemory>
    requires { CanCarry plan (S.tree store.old) }
    ensures reply { IfOk result (λ reply.
        answer_of reply ≡ (effect plan.entry (S.tree store.old)).0) }
    ensures tree { OnOk result (S.tree store.new ≡ (effect plan.entry (S.tree store.old)).1) }
    ensures err { OnErr result (S.tree store.new ≡ S.tree store.old) }
    ensures without_memory { PlanTakesNoMemory plan.entry → IsOk result }
{
    match plan {
        Plan::Add { dir, name, new, .. } => {
            let number = store.add(alloc, dir, name, new)?;
            Ok(Reply::Done(number))
        }
        Plan::Drop { dir, name, .. } => {
            store.drop_entry(dir, name);
            Ok(Reply::Unit)
        }
        Plan::Move {
            from,
            to,
            number,
            ..
        } => {
            store.move_entry(alloc, from, to, number)?;
            Ok(Reply::Unit)
        }
        Plan::Swap {
            from,
            to,
            first,
            second,
        } => {
            store.swap_entries(from, first.number, to, second.number);
            Ok(Reply::Unit)
        }
    }
}
