//! What a row tells of a key.

ghost use Rattle.std.specs.Prelude.{IfNone, IfSome};
ghost use Rattle.dc_plain.specs.KeysShown.{key_shown};
ghost use Rattle.dc_plain.specs.Trees.{Tree};
ghost use Rattle.dc_rows.specs.RowChanges.{CanTell, LeadsTo};
ghost use Rattle.dc_table.specs.Rows.{IsOf};

use dc_names::Kind;
use dc_plain::{Key, Label, Target};
use dc_row::{ROW_WORDS, Row, RowText, encode, encode_entry};
use dc_store::Store;

/// The words of a row that tells where an entry leads, or `None` if no row can tell it. No entry has
/// the label `Text`.
// Inlined, as is `encode_entry`.
#[inline(always)]
pub(crate) fn entry_words(key: &Key<'_>, target: Option<Target>) -> Option<[u64; ROW_WORDS]>
    ensures some { IfSome result (λ words.
        (t : Tree) → LeadsTo t (key_shown key.now) target → IsOf t words (key_shown key.now)) }
    ensures none { IfNone result
        ((t : Tree) → LeadsTo t (key_shown key.now) target → CanTell t (key_shown key.now) → ⊥) }
{
    encode_entry(*key, target)
}

/// The words of a row that tells what a store has under a key, or `None` if no row can tell it.
pub(crate) fn words_for<S: Store>(store: &S, key: &Key<'_>) -> Option<[u64; ROW_WORDS]>
    ensures some { IfSome result (λ words. IsOf (S.tree store.now) words (key_shown key.now)) }
    ensures none { IfNone result (CanTell (S.tree store.now) (key_shown key.now) → ⊥) }
{
    let target = match key.label {
        Label::Name(name) => match store.find(key.number, name) {
            Some(number) => store.kind(number).map(|kind| (number, kind)),
            None => None,
        },
        Label::DotDot => store.parent(key.number).map(|up| (up, Kind::Dir)),
        Label::Text => {
            let text = RowText::of(store.text(key.number)?)?;
            return encode(&Row::Link(key.number, text));
        }
    };
    entry_words(key, target)
}
