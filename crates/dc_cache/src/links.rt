//! Readlinks by the rows alone: which would be refused, and which meet a link.

ghost use Rattle.std.specs.Prelude.{◌≡◌, ◌≤◌, ◌+◌, ℕ, List};
ghost use Rattle.dc_cache.specs.Links.{ReadsFast, TellsOf};
ghost use Rattle.dc_cache.specs.Passes.{buckets_of, known, view, share, Fits};
ghost use Rattle.dc_table.specs.Shares.{HasNotTried};
ghost use Rattle.dc_names.specs.declared.limits.TheConstants.{MOST_LOADS};

use crate::cache::{Cache, Pass};
use dc_names::{Kind, PathText, Refusal};
use dc_plain::{
    Follow, Reply, Stamped, opening_tree_is_well_formed, operations_keep_trees_well_formed,
    paths_lead_to_the_living,
};
use dc_table::Wakes;
use dc_walk::{Fast, Why};

/// What the rows tell of a `readlink`.
#[derive(Debug, Drop)]
#[must_use]
pub enum FastLink {
    /// It would have been refused so at this point: the path leads to what is no link, or nowhere.
    Refused(Stamped),
    /// The path leads to a link, as a look-up found at this point. Its text is for `readlink` to tell.
    Link(Stamped),
    /// The rows don't tell.
    Again(Why),
}

impl<W: Wakes> Cache<W> {
    /// What a `readlink` is answered by the rows of the cache alone, if the path leads to no link: it
    /// takes no lock and no memory, never waits, and makes at most `MOST_LOADS` loads. It looks the path
    /// up without following a last link, and what is recorded is that look-up: a readlink on the tree of
    /// its point would have had this reply (EINVAL for what is no link, as POSIX.1-2017 has it).
    pub fn readlink_fast(&self, pass: &mut Pass, base: u64, path: PathText<'_>) -> FastLink
        requires pass { Fits self.now pass.old }
        ensures same { Fits self.now pass.new × (share pass.new ≡ share pass.old) }
        ensures reads { ReadsFast base path.entry.bytes.now (buckets_of pass.old)
            (view pass.old) (view pass.new) result }
        ensures untried { HasNotTried (known pass.old) (known pass.new) }
        ensures loads { (view pass.new).loads ≤ (view pass.old).loads + MOST_LOADS }
    {
        match self.look_fast(pass, base, path, Follow::No) {
            Fast::Done(found) => told_of(found),
            Fast::Again(why) => FastLink::Again(why),
        }
    }

    /// What the rows tell of a `readlink`, as `readlink_fast`, of a text that may be no path: then it is
    /// refused.
    pub fn readlink_text(&self, pass: &mut Pass, base: u64, path: &[u8]) -> FastLink
        requires pass { Fits self.now pass.old }
        ensures same { Fits self.now pass.new × (share pass.new ≡ share pass.old) }
        ensures reads { ReadsFast base path.now (buckets_of pass.old)
            (view pass.old) (view pass.new) result }
        ensures untried { HasNotTried (known pass.old) (known pass.new) }
        ensures loads { (view pass.new).loads ≤ (view pass.old).loads + MOST_LOADS }
    {
        match self.look_text(pass, base, path, Follow::No) {
            Fast::Done(found) => told_of(found),
            Fast::Again(why) => FastLink::Again(why),
        }
    }
}

/// What a look-up that follows no last link tells of a readlink.
fn told_of(found: Stamped) -> FastLink
    ensures { (base : ℕ) (text : List ℕ) → TellsOf base text found result }
{
    opening_tree_is_well_formed();
    operations_keep_trees_well_formed();
    paths_lead_to_the_living();
    let Reply::Found(_, kind) = found.reply else {
        // A look-up that finds nothing is refused, and a readlink with it.
        return FastLink::Refused(found);
    };
    match kind {
        Kind::Link => FastLink::Link(found),
        Kind::Dir | Kind::File => FastLink::Refused(Stamped {
            reply: Reply::Refused(Refusal::Invalid.number()),
            at: found.at,
        }),
    }
}
