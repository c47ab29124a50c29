//! Names as the keys of an ordered map.

ghost use Rattle.std.specs.Prelude.{◌≡◌, ℕ, List, nat_eq, Some, refl, IfOk};
ghost use Rattle.std.specs.BTreeMap.Comparable.{le_lt_trans};
ghost use Rattle.std.specs.Cmp.Lexicographic.{pointwise, slice_cmp, nat_list_cmp_total, texts_po, texts_ties};
ghost use Rattle.std.specs.Cmp.Rules.{comparing};
ghost use Rattle.std.specs.Ordering.{nat_cmp};
ghost use Rattle.std.proofs.Common.{rules};
ghost use Rattle.dc_store.specs.Fronts.{IsFront};

use dc_names::{Name, NoMemory};
use smallvec::SmallVec;
use std::alloc::Global;
use std::cmp::Ordering;
use std::collections::btree_map::Comparable;
use std::marker::Model;

/// The most bytes of a name that lie in its key. More would make each key larger.
const MOST_WITHIN: usize = 16;

/// How many of a name's bytes are compared at once.
const FRONT: usize = 8;

/// The bytes of a name, and the first of them as one number.
#[derive(Drop)]
pub struct NameBytes {
    front: u64,
    bytes: SmallVec<u8, MOST_WITHIN>,
}

impl Model for NameBytes {
    ghost Value = { List ℕ };

    ghost view = { λ name. name.bytes.items };

    ghost invariant = { λ name. IsFront name.front name.bytes.items };
}

impl NameBytes {
    /// A copy of the bytes of a name.
    pub fn new(alloc: Global, name: Name<'_>) -> Result<NameBytes, NoMemory>
        ensures { IfOk result (λ key. key ≡ name.entry.bytes.now) }
    {
        let bytes = SmallVec::from_slice(alloc, name.bytes())?;
        Ok(NameBytes {
            front: front_of(name.bytes()),
            bytes,
        })
    }

    pub fn as_slice(&self) -> &[u8]
        ensures { result.now ≡ self.now }
    {
        self.bytes.as_slice()
    }

    /// The first bytes as a number, as `front_of` makes it.
    fn front(&self) -> u64
        ensures { IsFront result self.now }
    {
        self.front
    }
}

impl PartialEq for NameBytes {
    ghost eq = { pointwise nat_eq };

    ghost laws = { Prim.search (comparing, rules) };

    fn eq(&self, other: &NameBytes) -> bool {
        self.as_slice() == other.as_slice()
    }
}

impl Eq for NameBytes {
    ghost laws = { Prim.search (comparing, rules) };
}

impl PartialOrd for NameBytes {
    ghost partial_cmp = { λ a b. Some (slice_cmp nat_cmp a b) };

    ghost laws = { texts_po };

    fn partial_cmp(&self, other: &NameBytes) -> Option<Ordering> {
        Some(self.cmp(other))
    }
}

impl Ord for NameBytes {
    ghost cmp = { slice_cmp nat_cmp };

    ghost total = { nat_list_cmp_total };

    ghost matches_partial_cmp = { λ a b. refl };

    ghost matches_eq = { texts_ties };

    fn cmp(&self, other: &NameBytes) -> Ordering {
        compare(self.front(), self.as_slice(), other)
    }
}

/// A name's first bytes as a number, the first one the highest, with zeros behind a shorter name. So the
/// numbers of two names are in the order of the names, or the same.
fn front_of(name: &[u8]) -> u64
    ensures { IsFront result name.now }
{
    let mut first = [0; FRONT];
    if name.len() < FRONT {
        first[..name.len()].copy_from_slice(name);
    } else {
        // As many bytes as a word has are copied at once.
        first.copy_from_slice(&name[..FRONT]);
    }
    u64::from_be_bytes(first)
}

/// How a name, whose first bytes are this number, compares with a key. Mostly the numbers differ, so that
/// no bytes are read that may lie elsewhere.
fn compare(front: u64, bytes: &[u8], key: &NameBytes) -> Ordering
    requires { IsFront front bytes.now }
    ensures { result ≡ slice_cmp nat_cmp bytes.now key.now }
{
    match front.cmp(&key.front()) {
        Ordering::Equal => bytes.cmp(key.as_slice()),
        other => other,
    }
}

/// The bytes of a name that is looked for among `NameBytes`, and the first of them as one number.
#[derive(Clone, Copy)]
pub struct SoughtBytes<'a> {
    front: u64,
    pub bytes: &'a [u8],
    ghost is_front: { IsFront front bytes.now },
}

impl<'a> SoughtBytes<'a> {
    pub fn new(name: Name<'a>) -> SoughtBytes<'a>
        ensures { result.bytes.now ≡ name.entry.bytes.now }
    {
        SoughtBytes {
            front: front_of(name.bytes()),
            bytes: name.bytes(),
        }
    }
}

impl Comparable<NameBytes> for SoughtBytes<'_> {
    ghost compare = { λ sought. slice_cmp nat_cmp sought.bytes.now };

    ghost respects_cmp = { λ sought. nat_list_cmp_total.congr sought.bytes.now };

    ghost below_greater = { λ sought. le_lt_trans nat_list_cmp_total sought.bytes.now };

    fn compare(&self, key: &NameBytes) -> Ordering {
        compare(self.front, self.bytes, key)
    }
}
