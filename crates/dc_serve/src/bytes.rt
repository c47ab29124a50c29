//! How the input is read whole, and how replies are written.

ghost use Rattle.std.specs.Prelude.{OnOk, IfOk, IfErr};
ghost use Rattle.std.specs.Io.KnownBytes.{Appends};
ghost use Rattle.dc_serve.specs.Bytes.{ReadWhole, IsReadFault, WritesFront, bytes_of};

use crate::{MOST_INPUT, ServeFault};
use dc_names::MOST_READS;
use std::alloc::Global;
use std::io::{Read, Write};

/// All bytes of the input, by reads up to one that gives none.
pub fn read_whole<R: Read>(alloc: Global, reader: &mut R) -> Result<Vec<u8>, ServeFault>
    ensures ok { IfOk result (λ input.
        ReadWhole (R.remaining reader.old) (R.remaining reader.new) input.items) }
    ensures fault { IfErr result IsReadFault }
{
    let mut input = Vec::new(alloc);
    let mut buffer = [0u8; 4096];
    'reads: for _ in 0..MOST_READS {
        // An interrupted read is a fault like any other and is not tried again: a reader that is
        // always interrupted would keep the server for ever.
        let Ok(count) = reader.read(&mut buffer) else {
            return Err(ServeFault::Read);
        };
        if count == 0 {
            return Ok(input);
        }
        if count > MOST_INPUT - input.len() {
            return Err(ServeFault::Read);
        }
        input.extend_from_slice(&buffer[..count])?;
    }
    Err(ServeFault::Read)
}

/// Writes all the bytes, or a front of them.
pub fn write_whole<W: Write>(writer: &mut W, bytes: &[u8]) -> Result<(), ServeFault>
    ensures ok { OnOk result (Appends (W.contents writer.old) (W.contents writer.new) bytes.now) }
    ensures err { IfErr result (λ fault.
        WritesFront (W.contents writer.old) (W.contents writer.new) bytes.now fault) }
{
    let mut done = 0;
    'writes: while done < bytes.len() {
        let Ok(count) = writer.write(&bytes[done..]) else {
            return Err(ServeFault::Write);
        };
        if count == 0 {
            return Err(ServeFault::Write);
        }
        done += count;
    }
    Ok(())
}

/// Writes some texts one after another, or a front of them.
pub fn write_texts<W: Write>(writer: &mut W, texts: &[Vec<u8>]) -> Result<(), ServeFault>
    ensures ok { OnOk result (Appends (W.contents writer.old) (W.contents writer.new)
        (bytes_of texts.now)) }
    ensures err { IfErr result (λ fault.
        WritesFront (W.contents writer.old) (W.contents writer.new) (bytes_of texts.now) fault) }
{
    for text in texts {
        write_whole(writer, text)?;
    }
    Ok(())
}
