//! From bytes to bytes.

ghost use Rattle.std.specs.Prelude.{◌≡◌, ◌↔◌, false, Err, OnOk, IfOk, IfErr, IsErrOf};
ghost use Rattle.dc_names.specs.Sizes.{are_right};
ghost use Rattle.dc_lang.specs.Commands.{said_by};
ghost use Rattle.dc_serve.specs.Endings.{Answers, AnswersPlainly, EndsBy, IsInputFault, Reads, streams};

use crate::bytes::read_whole;
use crate::serve::serve;
use crate::{Gate, Options, ServeFault};
use dc_lang::{Line, read_lines};
use std::alloc::Global;
use std::io::{Read, Write};
use std::sync::Wait;
use std::thread::Threads;

/// What the lines of the input say. The sizes are tested first; then the input is read whole, by at most
/// 1,048,578 reads, and each of its lines. It takes no runtime, so it waits for nobody and is proved to
/// return, whatever the reader does. `BadSize` comes exactly if a size is wrong, and `BadLine` of the
/// first line that is none of the grammar. `Read` is for a read that fails and an input of more than
/// `MOST_INPUT` bytes, `NoMemory` for memory that was refused: no clause says when these two come.
pub fn understand<R: Read>(
    alloc: Global,
    reader: &mut R,
    options: Options,
) -> Result<Vec<Line>, ServeFault>
    ensures ok { IfOk result (λ lines. Reads (R.remaining reader.old) (R.remaining reader.new)
        (said_by lines.items)) }
    ensures err { IfErr result (IsInputFault (R.remaining reader.old) (R.remaining reader.new)) }
    ensures size { IsErrOf result ServeFault.BadSize
        ↔ (are_right options.buckets options.inodes ≡ false) }
{
    if !options.are_right() {
        return Err(ServeFault::BadSize);
    }
    let input = read_whole(alloc, reader)?;
    Ok(read_lines(alloc, &input)?)
}

/// Answers the commands of the input, which `understand` reads. In a phase each session that has lines is
/// served in a thread of its own, the lowest in the one that calls; the gate is called before and after each
/// command. Threads wait for a lock and are joined, so the clauses hold if it returns, and none says that it
/// does. The replies of a phase are written, by session and line, before the next phase begins, and the
/// writer is flushed once, after the last.
///
/// The clauses say what is written then, whichever the answer is, and of the faults: `BadSize` comes
/// exactly if a size is wrong, before anything is read; `BadLine` of the first bad line of an input
/// that was read whole; `Spent` never. When `Read`, `Write` and `NoMemory` come isn't said: `Read` is
/// for a read that fails and an input of more than `MOST_INPUT` bytes, `Write` for a write that fails or
/// takes nothing and a flush that fails, `NoMemory` for memory or a thread that was refused.
pub fn run<T: Threads + Wait + Sync, R: Read, W: Write, G: Gate>(
    rt: &T,
    alloc: Global,
    reader: &mut R,
    writer: &mut W,
    options: Options,
    gate: &G,
) -> Result<(), ServeFault>
    // What is written is the replies of a run of the plain tree to the lines that were read.
    ensures ok { OnOk result (Answers options.inodes (streams
        (R.remaining reader.old) (R.remaining reader.new)
        (W.contents writer.old) (W.contents writer.new))) }

    // If in each phase one session alone has commands, that is what the plain server answers.
    ensures plain { OnOk result (AnswersPlainly options.inodes (streams
        (R.remaining reader.old) (R.remaining reader.new)
        (W.contents writer.old) (W.contents writer.new))) }

    // What each fault says of the input, and which front of the replies was written.
    ensures err { IfErr result (EndsBy options.inodes (streams
        (R.remaining reader.old) (R.remaining reader.new)
        (W.contents writer.old) (W.contents writer.new))) }
    ensures size { IsErrOf result ServeFault.BadSize
        ↔ (are_right options.buckets options.inodes ≡ false) }
{
    let lines = understand(alloc, reader, options)?;
    serve(rt, alloc, &lines, options, gate, writer)?;
    match writer.flush() {
        Ok(()) => Ok(()),
        Err(_) => Err(ServeFault::Write),
    }
}
