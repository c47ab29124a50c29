//! Rows with keys, call by call.

ghost use Rattle.std.specs.Prelude.{◌≡◌, ◌≢◌, ◌*◌, ◌/◌, ℕ, ◌<◌, ◌≤◌, IfOk, OnOk, length, slice_set};
ghost use Rattle.dc_names.specs.declared.limits.TheConstants.{MOST_TABLE_BUCKETS};
ghost use Rattle.dc_plain.specs.KeysShown.{key_shown};
ghost use Rattle.dc_index.specs.Slots.{slot_of, bucket_in};
ghost use Rattle.dc_index.specs.Slots.Slot.{Free, Retired, Holds};

use crate::shrink::new_again;
use dc_index::{HashedKey, Index, bucket_at};
use dc_names::{BUCKET_ROWS, Name, NoMemory, hash};
use dc_plain::{Key, Label};
use std::alloc::Global;
use std::test::*;

// The calls that take memory are made once more after it was refused, if nothing changed by that.
// So the test passes whichever allocation `rt try --test --fail-alloc N` refuses.

fn new_index_again(alloc: Global, buckets: u64) -> Result<Index, NoMemory>
    requires { (0 < buckets) × (buckets ≤ MOST_TABLE_BUCKETS) }
    ensures rows { IfOk result (λ index. length index ≡ BUCKET_ROWS * buckets) }
    ensures free { IfOk result (λ index. (row : ℕ) → slot_of index row ≡ Free) }
{
    match Index::new(alloc, buckets) {
        Ok(made) => Ok(made),
        Err(NoMemory) => Index::new(alloc, buckets),
    }
}

fn set_again(index: &mut Index, alloc: Global, row: u64, key: &Key<'_>) -> Result<(), NoMemory>
    requires home { row / BUCKET_ROWS ≡ bucket_in index.old (key_shown key.now) }
    requires unretired { slot_of index.old row ≢ Retired }
    requires absent { (other : ℕ) → slot_of index.old other ≢ Holds (key_shown key.now) }
    ensures { OnOk result (index.new ≡ slice_set index.old row (Holds (key_shown key.now))) }
{
    match index.set(alloc, row, key) {
        Ok(()) => Ok(()),
        Err(NoMemory) => {
            if index.row_of(key).is_some() {
                return Err(NoMemory);
            }
            index.set(alloc, row, key)
        }
    }
}

/// The row that a key is to have among free ones, the row that it is to have once that one is
/// retired, where it is found then, and where after its row was cleared.
fn rows_of(alloc: Global, buckets: u64, key: &Key<'_>) -> Result<[Option<u64>; 4], NoMemory>
    requires { (0 < buckets) × (buckets ≤ MOST_TABLE_BUCKETS) }
{
    let mut index = new_index_again(alloc, buckets)?;
    let shrinker = new_again(alloc, BUCKET_ROWS * buckets)?;
    let hashed = HashedKey::new(*key);
    let Some(first) = index.choose(&shrinker, &hashed) else {
        return Ok([None; 4]);
    };
    index.retire(first);
    let (Some(row), None) = (index.choose(&shrinker, &hashed), index.row_of(key)) else {
        return Ok([None; 4]);
    };
    set_again(&mut index, alloc, row, key)?;
    let found = index.row_of_hashed(&hashed);
    index.clear(row);
    Ok([Some(first), Some(row), found, index.row_of(key)])
}

#[test]
fn keys_stand_in_their_bucket(rt: HostRuntime) -> Result<(), Fail> {
    let name = Name::new(b"a").ok_or("no name")?;
    let labels = [
        (1, Label::Name(name), 3836u64),
        (2, Label::DotDot, 3068),
        (2, Label::Text, 2076),
    ];
    for (number, label, row) in labels.iter().copied() {
        let rows = rows_of(rt.alloc(), 1024, &Key { number, label })?;
        let next = Some(row.saturating_add(1));
        assert!(rt; rows == [Some(row), next, next, None], "{number}");
    }
    Ok(())
}

/// Whether the longest name has the rows of its bucket among this many, by its hash too.
fn has_rows(alloc: Global, buckets: u64, name: Name<'_>) -> Result<bool, NoMemory>
    requires { (0 < buckets) × (buckets ≤ MOST_TABLE_BUCKETS) }
{
    let key = Key {
        number: u64::MAX,
        label: Label::Name(name),
    };
    let bucket = HashedKey::new(key).bucket(buckets);
    let first = bucket.saturating_mul(4);
    let next = first.saturating_add(1);
    let rows = rows_of(alloc, buckets, &key)?;
    Ok(
        bucket_at(hash(key.number, name.bytes()), buckets) == bucket
            && rows == [Some(first), Some(next), Some(next), None],
    )
}

#[test]
fn the_longest_name_has_a_row(rt: HostRuntime) -> Result<(), Fail> {
    let name = Name::new(&[b'a'; 255]).ok_or("no name")?;
    assert!(rt; has_rows(rt.alloc(), 1, name)? && has_rows(rt.alloc(), 2, name)?);
    assert!(rt; has_rows(rt.alloc(), 1023, name)? && has_rows(rt.alloc(), 1024, name)?);
    Ok(())
}

/// How many bytes the text of the last row of one bucket has at most, before it gets a key and after.
fn most_texts(alloc: Global, key: &Key<'_>) -> Result<[usize; 2], NoMemory> {
    let mut index = new_index_again(alloc, 1)?;
    let before = index.most_text(3);
    set_again(&mut index, alloc, 3, key)?;
    Ok([before, index.most_text(3)])
}

#[test]
fn a_text_is_no_longer_than_its_key_lets_it_be(rt: HostRuntime) -> Result<(), Fail> {
    let name = Name::new(b"abc").ok_or("no name")?;
    let labels = [
        (Label::Name(name), 3),
        (Label::DotDot, 2),
        (Label::Text, 255),
    ];
    for (label, most) in labels.iter().copied() {
        let texts = most_texts(rt.alloc(), &Key { number: 7, label })?;
        assert!(rt; texts[0] == 0 && texts[1] == most, "{texts:?}");
    }
    Ok(())
}
