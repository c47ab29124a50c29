//! What a change takes away.

ghost use Rattle.std.specs.Prelude.{◌≡◌, IfOk, IfSome, IsTrue};
ghost use Rattle.dc_cache.specs.Losses.{goes_with_a_name, gone_by};
ghost use Rattle.dc_ops.specs.Plans.{LivesIfWell};
ghost use Rattle.dc_ops.specs.Taken.{taken};

use dc_names::Kind;
use dc_ops::Plan;
use dc_plain::Reply;
use dc_store::{SlabStore, Store};

/// What stood at a name that a change took away: of an `Unlink`, a `Rmdir`, or a `Rename` over something.
#[derive(Clone, Copy, Debug, PartialEq, Eq)]
pub struct Gone {
    /// The number that the name led to.
    pub number: u64,
    /// What that inode was.
    pub kind: Kind,
    /// Whether that was its last name, so that the inode went too. So it is of each directory.
    pub last: bool,
}

/// Whether an inode has no other name. A directory never has.
fn is_last(store: &SlabStore, number: u64, kind: Kind) -> bool
    requires lives { LivesIfWell store.now (number, kind) }
    ensures { result ≡ goes_with_a_name store.now (number, kind) }
{
    match kind {
        Kind::Dir => true,
        Kind::File | Kind::Link => store.count(number) <= 1,
    }
}

/// What a change takes away by its plan, as it stands before the change, if that is asked for.
pub(crate) fn going(
    store: &SlabStore,
    planned: &Result<Plan<'_>, Reply>,
    telling: bool,
) -> Option<Gone>
    requires lives { IfOk planned.now (λ plan. IfSome (taken plan) (LivesIfWell store.now)) }
    ensures { IsTrue telling → result ≡ gone_by store.now planned.now }
{
    if !telling {
        return None;
    }
    let Ok(plan) = planned else {
        return None;
    };
    let (number, kind) = plan.taken()?;
    let last = is_last(store, number, kind);
    Some(Gone { number, kind, last })
}
