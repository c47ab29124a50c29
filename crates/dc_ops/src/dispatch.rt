//! Plans of all changes.

ghost use Rattle.std.specs.Prelude.{◌≡◌, Some, Ok, Err, IfOk, IfErr, IfSome};
ghost use Rattle.dc_plain.specs.Requests.{answer_of, request_of};
ghost use Rattle.dc_ops.specs.Asked.{IsChange};
ghost use Rattle.dc_ops.specs.Knowing.{IsKnownOn};
ghost use Rattle.dc_ops.specs.Plans.{Plans, CallTakesNoMemory};
ghost use Rattle.dc_ops.specs.Settled.{DeclinesCall, FoundTakesNoMemory, SettlesCallIf};
ghost use Rattle.dc_ops.specs.Taken.{taken_by, taken_if, TakesNothing};

use crate::makes::{plan_link, plan_make, plan_symlink};
use crate::renames::plan_rename;
use crate::takes::{plan_rmdir, plan_unlink};
use crate::{Known, Plan};
use dc_names::Refusal;
use dc_plain::{
    Call, Reply, alters_tells_whether_trees_differ, names_in_directories_are_in_order,
    paths_lead_to_the_living,
};
use dc_store::{New, Store};

/// The plan of a change, or the reply of one that alters nothing: its refusal, or `Unit` of a rename
/// between two names of one inode. It takes no memory.
///
/// `max_inodes`, from 1 to `MOST_INODES`, is how many inodes may live, the root among them.
pub fn plan<'a, S: Store>(store: &S, call: &Call<'a>, max_inodes: u64) -> Result<Plan<'a>, Reply>
    requires { IsChange call.now }
    ensures planned { IfOk result (Plans max_inodes (S.tree store.now) (request_of call.now)) }
    ensures declined { IfErr result (λ reply.
        DeclinesCall max_inodes (S.tree store.now) call.now reply) }
    ensures idle { IfErr result (λ reply.
        TakesNothing (S.tree store.now) (request_of call.now) (answer_of reply)) }
{
    plan_knowing(store, call, max_inodes, None)
}

/// The plan of a change, as `plan`, for a caller that knows where a path leads. The store isn't asked for
/// the directory of a name whose path is that one and the name.
pub fn plan_knowing<'a, S: Store>(
    store: &S,
    call: &Call<'a>,
    max_inodes: u64,
    known: Option<Known<'_>>,
) -> Result<Plan<'a>, Reply>
    requires change { IsChange call.now }
    requires known { IfSome known (IsKnownOn (S.tree store.now)) }
    ensures planned { IfOk result (Plans max_inodes (S.tree store.now) (request_of call.now)) }
    ensures declined { IfErr result (λ reply.
        DeclinesCall max_inodes (S.tree store.now) call.now reply) }
    ensures idle { IfErr result (λ reply.
        TakesNothing (S.tree store.now) (request_of call.now) (answer_of reply)) }
{
    alters_tells_whether_trees_differ();
    names_in_directories_are_in_order();
    paths_lead_to_the_living();
    match found(store, call, max_inodes, known) {
        Ok(Some(plan)) => Ok(plan),
        Ok(None) => Err(Reply::Unit),
        Err(refusal) => Err(Reply::Refused(refusal.number())),
    }
}

/// The plan of a change, if it alters the tree, or its refusal.
fn found<'a, S: Store>(
    store: &S,
    call: &Call<'a>,
    limit: u64,
    known: Option<Known<'_>>,
) -> Result<Option<Plan<'a>>, Refusal>
    requires change { IsChange call.now }
    requires known { IfSome known (IsKnownOn (S.tree store.now)) }
    ensures settled { SettlesCallIf limit (S.tree store.now) (request_of call.now) result }
    ensures without_memory { CallTakesNoMemory (request_of call.now) → FoundTakesNoMemory result }
    ensures taken { IfOk result (λ found.
        taken_if found ≡ taken_by (S.tree store.now) (request_of call.now)) }
{
    match *call {
        Call::Mkdir { base, path } => some(plan_make(store, known, base, path, New::Dir, limit)),
        Call::Create { base, path } => some(plan_make(store, known, base, path, New::File, limit)),
        Call::Symlink { base, text, path } => {
            some(plan_symlink(store, known, base, text, path, limit))
        }
        Call::Link { base, old, new } => some(plan_link(store, known, base, old, new)),
        Call::Unlink { base, path } => some(plan_unlink(store, known, base, path)),
        Call::Rmdir { base, path } => some(plan_rmdir(store, known, base, path)),
        Call::Rename {
            base,
            old,
            new,
            flags,
        } => plan_rename(store, known, base, old, new, flags),
        // A read has no plan, and the caller knows that this is a change.
        Call::Look { .. } | Call::Readlink { .. } | Call::Stat { .. } | Call::List { .. } => {
            unreachable!()
        }
    }
}

/// The plan of a change that is never idle, or its refusal.
fn some(found: Result<Plan<'_>, Refusal>) -> Result<Option<Plan<'_>>, Refusal>
    ensures ok { IfOk found.entry (λ plan. result ≡ Ok (Some plan)) }
    ensures err { IfErr found.entry (λ refusal. result ≡ Err refusal) }
{
    match found {
        Ok(plan) => Ok(Some(plan)),
        Err(refusal) => Err(refusal),
    }
}
