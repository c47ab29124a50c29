//! The hash of keys: FNV-1a.

ghost use Rattle.std.specs.Prelude.{◌≡◌};
ghost use Rattle.std.specs.Int.{w64, to_le_bytes};
ghost use Rattle.dc_names.specs.Hash.{hash_of, hash_from, hash_step};

/// What FNV-1a begins with (the offset basis of 64 bits).
const BASIS: u64 = 14695981039346656037;

/// What FNV-1a multiplies by (the prime of 64 bits).
const PRIME: u64 = 1099511628211;

/// The prime to the fourth, in 64 bits: what four zero bytes do.
const PRIME_4: u64 = 11527715348014283921;

/// The prime to the seventh, in 64 bits.
const PRIME_7: u64 = 14218562807570617051;

/// The hash of a number and the bytes beside it, by FNV-1a with 64 bits.
#[must_use]
// Inlined, so that the short way of `hash_number` stands in the caller, on the path of each look-up.
#[inline(always)]
pub fn hash(number: u64, bytes: &[u8]) -> u64
    ensures { result ≡ hash_of number bytes.now }
{
    hash_from(hash_number(number), bytes)
}

/// The hash of the eight bytes of a number. A zero byte does no more than multiply, so those above a
/// small number are one multiplication by a power.
// Inlined: the short way is cheaper than a call.
#[inline(always)]
pub(crate) fn hash_number(number: u64) -> u64
    ensures { result ≡ hash_from BASIS (to_le_bytes w64 number) }
{
    if number < 1 << 16 {
        let low = (BASIS ^ (number % 256)).wrapping_mul(PRIME);
        return (low ^ (number / 256)).wrapping_mul(PRIME_7);
    }
    match u32::try_from(number) {
        Ok(low) => hash_from(BASIS, &low.to_le_bytes()).wrapping_mul(PRIME_4),
        Err(_) => hash_from(BASIS, &number.to_le_bytes()),
    }
}

/// The hash of some bytes, taken on from a start.
// A call of its own (measured): written into `hash_number`, the hash of all eight bytes would be worked out
// beside the short way, whatever the number is.
#[inline(never)]
fn hash_from(start: u64, bytes: &[u8]) -> u64
    ensures { result ≡ hash_from start bytes.now }
{
    bytes.iter().fold(start, |h, b| hash_on(h, *b))
}

/// The hash after one byte more.
// Inlined: two instructions in the loop over a name.
#[inline(always)]
pub(crate) fn hash_on(hash: u64, byte: u8) -> u64
    ensures { result ≡ hash_step hash byte }
{
    (hash ^ u64::from(byte)).wrapping_mul(PRIME)
}
