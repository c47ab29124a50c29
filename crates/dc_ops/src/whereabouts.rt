//! Where a directory is.

ghost use Rattle.std.specs.Prelude.{◌≡◌, ℕ, ◌+◌, ◌<◌, ◌≤◌, ◌∷◌, ◌++◌, List, length, drop, take, IfErr, IfNone, IfOk, IfSome, IsTrue};
ghost use Rattle.dc_names.specs.declared.limits.TheConstants.{PATH_MAX};
ghost use Rattle.dc_plain.specs.Trees.{is_live_directory};
ghost use Rattle.dc_ops.specs.Whereabouts.{FindsBy, HasNoPath, IsPathOf, IsSoFar};

use dc_names::{Kind, PATH_MAX, Refusal};
use dc_plain::{alters_tells_whether_trees_differ, names_lead_to_the_living};
use dc_store::{SlabStore, Store};

/// Writes the path of a directory from the root to the end of a buffer, and answers where it begins there.
/// `NotFound` if no directory lives under the number; `NameTooLong` if the path has more than `PATH_MAX`
/// bytes. In each directory on the way the names are looked at one after another, up to the one that leads
/// on, so it takes as long as there are names.
pub fn path_of(
    store: &SlabStore,
    number: u64,
    buffer: &mut [u8; PATH_MAX],
) -> Result<usize, Refusal>
    ensures path { IfOk result (λ start. IsPathOf store.now number (drop start buffer.new)) }
    ensures found { IfOk result (λ start. FindsBy store.now number (drop start buffer.new)) }
    ensures within { IfOk result (λ start. start < PATH_MAX) }
    ensures refused { IfErr result (HasNoPath store.now number) }
{
    alters_tells_whether_trees_differ();
    if !is_live(store, number) {
        return Err(Refusal::NotFound);
    }
    let Some(start) = climb(store, number, buffer) else {
        return Err(Refusal::NameTooLong);
    };
    if start < PATH_MAX {
        return Ok(start);
    }
    // No name leads to the root.
    buffer[PATH_MAX - 1] = b'/';
    Ok(PATH_MAX - 1)
}

/// Whether a directory lives under a number.
fn is_live(store: &SlabStore, number: u64) -> bool
    ensures { result ≡ is_live_directory store.now number }
{
    match store.kind(number) {
        Some(Kind::Dir) => true,
        Some(Kind::File) => false,
        Some(Kind::Link) => false,
        None => false,
    }
}

/// Writes the names from the root to a directory, a slash before each, to the end of a buffer. `None` if
/// there is no room for one.
fn climb(store: &SlabStore, number: u64, buffer: &mut [u8; PATH_MAX]) -> Option<usize>
    requires { IsTrue (is_live_directory store.now number) }
    ensures led { IfSome result (λ start. IsSoFar store.now number 1 start buffer.new) }
    ensures long { IfNone result ((path : List ℕ) →
        IsPathOf store.now number path → PATH_MAX < length path) }
{
    names_lead_to_the_living();
    let mut at = number;
    let mut start = PATH_MAX;
    'climb: while at != 1 {
        // A live directory other than the root stands in another, as the requires says of the first.
        let Some((up, name)) = store.own_entry(at) else {
            unreachable!();
        };
        let from = put_before(buffer, start, name)?;
        start = from;
        at = up;
    }
    Some(start)
}

/// Writes a slash and a name before a place, and answers where they begin. `None` if there is no room.
fn put_before(bytes: &mut [u8], place: usize, name: &[u8]) -> Option<usize>
    requires { place ≤ length bytes.old }
    ensures put { IfSome result (λ start. drop start bytes.new
        ≡ 47 ∷ (name.now ++ drop place bytes.old)) }
    ensures before { IfSome result (λ start. start + 1 + length name.now ≡ place) }
    ensures full { IfNone result (place < 1 + length name.now) }
    ensures same { length bytes.new ≡ length bytes.old }
{
    let start = place.checked_sub(1 + name.len())?;
    put_at(bytes, start + 1, name);
    put_at(bytes, start, b"/");
    Some(start)
}

/// Writes a part over the bytes from a place on.
fn put_at(bytes: &mut [u8], start: usize, part: &[u8])
    requires { start + length part.now ≤ length bytes.old }
    ensures put { bytes.new
        ≡ take start bytes.old ++ part.now ++ drop (start + length part.now) bytes.old }
    ensures same { length bytes.new ≡ length bytes.old }
{
    bytes[start..start + part.len()].copy_from_slice(part);
}
