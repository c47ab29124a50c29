//! Texts and names, written into a caller's buffer.

ghost use Rattle.std.specs.Prelude.{◌≡◌, ◌++◌, ◌∷◌, ◌+◌, ◌-◌, ◌≤◌, length, take, drop, IfSome, IfNone};
ghost use Rattle.dc_hold.specs.Buffers.{names_over, text_over};
ghost use Rattle.dc_hold.specs.Numbers.{bytes_of};

/// Writes the first bytes of a text, as many as there is room for.
pub fn put_text(buffer: &mut [u8], text: &[u8])
    ensures { buffer.new ≡ text_over buffer.old text.now }
{
    let many = buffer.len().min(text.len());
    buffer[..many].copy_from_slice(&text[..many]);
}

/// Writes a name with a zero byte behind it, and answers where the next one goes. `None` if it has no
/// room: then nothing is written.
fn put_name(buffer: &mut [u8], at: usize, name: &[u8]) -> Option<usize>
    requires { at ≤ length buffer.old }
    ensures next { IfSome result (λ next. (next ≡ at + length name.now + 1)
        × (next ≤ length buffer.old)
        × (buffer.new ≡ take at buffer.old ++ name.now ++ 0 ∷ drop next buffer.old)) }
    ensures full { IfNone result ((length buffer.old - at ≤ length name.now)
        × (buffer.new ≡ buffer.old)) }
{
    let left = buffer.len() - at;
    if name.len() >= left {
        return None;
    }
    let end = at + name.len();
    buffer[at..end].copy_from_slice(name);
    buffer[end] = 0;
    Some(end + 1)
}

/// Writes names one after the other, each with a zero byte behind it, up to the first that has no room.
/// Answers how many bytes all of them would take.
#[must_use]
pub fn put_names(buffer: &mut [u8], names: &[Vec<u8>]) -> u64
    ensures same { length buffer.new ≡ length buffer.old }
    ensures written { buffer.new ≡ names_over buffer.old names.now }
    ensures all { result ≡ bytes_of names.now }
{
    let mut all: u64 = 0;
    let mut next = Some(0);
    for name in names {
        all = all.saturating_add(name.len() as u64).saturating_add(1);
        next = match next {
            Some(at) => put_name(buffer, at, name.as_slice()),
            None => None,
        };
    }
    all
}
