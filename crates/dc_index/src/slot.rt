//! What is known of one row: free, retired, or the key that it has.

ghost use Rattle.std.specs.Prelude.{◌≡◌, IfOk, map, position};
ghost use Rattle.std.specs.List.{range_with_len};
ghost use Rattle.dc_index.specs.declared.slot.Slot.TheVariants as slot;
ghost use Rattle.dc_plain.specs.Facts.{same_label};
ghost use Rattle.dc_plain.specs.KeysShown.{key_shown, label_shown};
ghost use Rattle.dc_index.specs.Slots.{has_key, is_free, is_slot_of, most_bytes, most_text, same_key, cleared};
ghost use Rattle.dc_index.specs.OwnKeys.{own_label_shown, own_shown, slot_shown};

use dc_names::NAME_MAX;
use dc_plain::{Key, Label};
use smallvec::SmallVec;
use std::alloc::{AllocError, Global};

/// The most bytes of a name that lie in the slot itself. A bucket's keys are compared without a look elsewhere then, and
/// most names are shorter.
const MOST_WITHIN: usize = 16;

/// A label with its bytes.
#[derive(Drop)]
pub(crate) enum OwnLabel {
    Name(SmallVec<u8, MOST_WITHIN>),
    DotDot,
    Text,
}

/// A key with its bytes.
#[derive(Drop)]
pub(crate) struct OwnKey {
    number: u64,
    label: OwnLabel,
}

/// What is known of a row.
#[derive(Drop)]
pub(crate) enum Slot {
    Free,
    /// Its count can't rise any more.
    Retired,
    Held(OwnKey),
}

impl OwnLabel {
    /// A label by value.
    fn of(alloc: Global, label: &Label<'_>) -> Result<OwnLabel, AllocError>
        ensures { IfOk result (λ own. own_label_shown own ≡ label_shown label.now) }
    {
        Ok(match label {
            Label::Name(name) => OwnLabel::Name(SmallVec::from_slice(alloc, name.bytes())?),
            Label::DotDot => OwnLabel::DotDot,
            Label::Text => OwnLabel::Text,
        })
    }

    fn is(&self, label: &Label<'_>) -> bool
        ensures { result ≡ same_label (own_label_shown self.now) (label_shown label.now) }
    {
        match (self, label) {
            (OwnLabel::Name(own), Label::Name(name)) => own.as_slice() == name.bytes(),
            (OwnLabel::DotDot, Label::DotDot) | (OwnLabel::Text, Label::Text) => true,
            _ => false,
        }
    }

    /// How many bytes the text has at most that stands in a row for the label.
    fn most_bytes(&self) -> usize
        ensures { result ≡ most_bytes (own_label_shown self.now) }
    {
        match self {
            OwnLabel::Name(name) => name.len(),
            OwnLabel::DotDot => b"..".len(),
            OwnLabel::Text => NAME_MAX,
        }
    }
}

impl OwnKey {
    pub(crate) fn of(alloc: Global, key: &Key<'_>) -> Result<OwnKey, AllocError>
        ensures { IfOk result (λ own. own_shown own ≡ key_shown key.now) }
    {
        Ok(OwnKey {
            number: key.number,
            label: OwnLabel::of(alloc, &key.label)?,
        })
    }

    fn is(&self, key: &Key<'_>) -> bool
        ensures { result ≡ same_key (own_shown self.now) (key_shown key.now) }
    {
        self.number == key.number && self.label.is(&key.label)
    }
}

impl Slot {
    fn is_free(&self) -> bool
        ensures { result ≡ is_free (slot_shown self.now) }
    {
        matches!(self, Slot::Free)
    }

    pub(crate) fn has_key(&self) -> bool
        ensures { result ≡ has_key (slot_shown self.now) }
    {
        matches!(self, Slot::Held(_))
    }

    /// How many bytes the text of the row has at most.
    pub(crate) fn most_text(&self) -> usize
        ensures { result ≡ most_text (slot_shown self.now) }
    {
        match self {
            Slot::Held(own) => own.label.most_bytes(),
            Slot::Free | Slot::Retired => 0,
        }
    }

    /// Takes the key away, if there is one.
    pub(crate) fn clear(&mut self)
        ensures { slot_shown self.new ≡ cleared (slot_shown self.old) }
    {
        if let Slot::Held(_) = self {
            *self = Slot::Free;
        }
    }

    fn holds(&self, key: &Key<'_>) -> bool
        ensures { result ≡ is_slot_of (key_shown key.now) (slot_shown self.now) }
    {
        match self {
            Slot::Free | Slot::Retired => false,
            Slot::Held(own) => own.is(key),
        }
    }
}

/// Where the first free slot stands.
pub(crate) fn place_of_free(slots: &[Slot]) -> Option<usize>
    ensures { result ≡ position (λ slot. is_free (slot_shown slot)) slots.now }
{
    slots.iter().position(|slot| slot.is_free())
}

/// Where the slot with a key stands.
pub(crate) fn place_of_key(slots: &[Slot], key: &Key<'_>) -> Option<usize>
    ensures { result
        ≡ position (λ slot. is_slot_of (key_shown key.now) (slot_shown slot)) slots.now }
{
    slots.iter().position(|slot| slot.holds(key))
}

/// This many free slots.
pub(crate) fn free_slots(alloc: Global, rows: u64) -> Result<Vec<Slot>, AllocError>
    ensures { IfOk result (λ slots. slots.items ≡ map (λ _. slot.Free) (range_with_len 0 rows)) }
{
    (0..rows).map(|_| Slot::Free).collect(alloc)
}
