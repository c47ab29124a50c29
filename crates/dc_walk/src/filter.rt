//! A filter of keys by their hashes: a walk looks through its used rows only for a key that it may hold.

ghost use Rattle.std.specs.Prelude.{◌↔◌, ◌≡◌, ◌%◌, ℕ, IsTrue};
ghost use Rattle.dc_walk.specs.Filters.{MayHold};
ghost use Rattle.dc_walk.specs.declared.filter.TheConstants.{FILTER_PLACES};

/// How many places a filter has. A path of eight names adds eight keys, so with 128 places the last of
/// them meets another key's some 5 times in 100, and 128 bytes are two cache lines to clear.
pub(crate) const FILTER_PLACES: usize = 128;

/// Keys by the places of their hashes: a key that was added it may hold, and of another it says so too
/// if both have one place.
#[derive(Drop)]
pub(crate) struct KeyFilter {
    places: [bool; FILTER_PLACES],
}

impl KeyFilter {
    /// The filter of no keys.
    pub(crate) fn new() -> KeyFilter
        ensures { (hash : ℕ) → MayHold result hash → ⊥ }
    {
        KeyFilter {
            places: [false; FILTER_PLACES],
        }
    }

    /// Whether it may hold keys with a hash.
    #[inline(always)]
    pub(crate) fn may_hold(&self, hash: u64) -> bool
        ensures { IsTrue result ↔ MayHold self.now hash }
    {
        self.places[place_of(hash)]
    }

    /// Adds the keys with a hash.
    #[inline(always)]
    pub(crate) fn add(&mut self, hash: u64)
        ensures added { MayHold self.new hash }
        ensures kept { (other : ℕ) → MayHold self.old other → MayHold self.new other }
    {
        self.places[place_of(hash)] = true;
    }
}

/// The place of a hash.
#[inline(always)]
fn place_of(hash: u64) -> usize
    ensures { result ≡ hash % FILTER_PLACES }
{
    (hash % FILTER_PLACES as u64) as usize
}
