//! Bytes in words of 64 bits.

ghost use Rattle.std.specs.Prelude.{◌≡◌, ◌≤◌, ◌<◌, ◌+◌, length, drop};
ghost use Rattle.dc_names.specs.Words.{GivesBack, word_of, bytes_in, padded};

/// At most 8 bytes in one word, the first byte lowest, the rest zero.
#[must_use]
// Inlined, as is `pack_from`.
#[inline(always)]
pub fn pack(bytes: &[u8]) -> u64
    requires { length bytes.now ≤ 8 }
    ensures word { result ≡ word_of bytes.now }
    ensures back { bytes_in result ≡ padded bytes.now }
{
    // The last four, or two, may begin among the first, and what both have is shifted out. Byte by
    // byte it would be a loop whose end no processor guesses (measured).
    if let (Some(first), Some(last)) = (bytes.first_chunk::<4>(), bytes.last_chunk::<4>()) {
        let low = u64::from(u32::from_le_bytes(*first));
        let high = u64::from(u32::from_le_bytes(*last)) >> (8 * (8 - bytes.len()));
        return low + (high << 32);
    }
    if let (Some(first), Some(last)) = (bytes.first_chunk::<2>(), bytes.last_chunk::<2>()) {
        let low = u64::from(u16::from_le_bytes(*first));
        let high = u64::from(u16::from_le_bytes(*last)) >> (8 * (4 - bytes.len()));
        return low + (high << 16);
    }
    u64::from(bytes.first().copied().unwrap_or(0))
}

/// The bytes of a text from one of its last eight on, in one word as `pack` has them.
#[must_use]
// Inlined: it is called for each row that is compared.
#[inline(always)]
pub fn pack_from(text: &[u8], from: usize) -> u64
    requires some { from < length text.now }
    requires few { length text.now ≤ from + 8 }
    ensures { result ≡ word_of (drop from text.now) }
{
    match text.last_chunk::<8>() {
        // The bytes before are shifted out, for the reason that `pack` gives.
        Some(block) => u64::from_le_bytes(*block) >> (8 * (from + 8 - text.len())),
        None => pack(&text[from..]),
    }
}

/// The 8 bytes of a word, the lowest first.
#[must_use]
pub fn unpack(word: u64) -> [u8; 8]
    ensures bytes { result ≡ bytes_in word }
    ensures back { word_of result ≡ word }
    ensures undoes { GivesBack word result }
{
    word.to_le_bytes()
}
