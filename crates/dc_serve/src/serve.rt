//! How phases are served, one after the other.

ghost use Rattle.std.specs.Prelude.{◌≡◌, true, OnOk, IfErr};
ghost use Rattle.dc_cache.specs.Passes.{known, share, view, Fits};
ghost use Rattle.dc_names.specs.Sizes.{are_right};
ghost use Rattle.dc_serve.specs.Served.{ServesLines, ServesUntil, WroteAll, WroteUntil};
ghost use Rattle.dc_table.specs.Changes.{NothingNew};
ghost use Rattle.dc_table.specs.Shares.{first_known};

use crate::bytes::write_texts;
use crate::phase::serve_phase;
use crate::session::Phase;
use crate::{Gate, Options, ServeFault};
use dc_cache::{Dcache, Pass};
use dc_events::records_are_legal;
use dc_lang::{Line, SESSION_COUNT, SESSIONS, phases};
use std::alloc::Global;
use std::io::Write;
use std::sync::Wait;
use std::sync::atomic::AtomicU64;
use std::thread::Threads;

/// Serves phase after phase with the first pass of a cache, which it gives back, and writes the
/// replies to each once it is served.
fn serve_phases<R: Threads + Wait + Sync, G: Gate, W: Write>(
    rt: &R,
    alloc: Global,
    cache: &Dcache,
    mut pass: Pass,
    phases: &[&[Line]],
    gate: &G,
    writer: &mut W,
) -> (Pass, Result<(), ServeFault>)
    requires pass { Fits cache.now pass }
    requires first { known pass ≡ first_known (share pass).limit (share pass).rows }
    ensures pass { Fits cache.now result.0 }
    ensures ok { OnOk result.1 (WroteAll pass phases.now
        (W.contents writer.old) (W.contents writer.new) result.0) }
    ensures err { IfErr result.1 (WroteUntil pass phases.now
        (W.contents writer.old) (W.contents writer.new) result.0) }
{
    let mut next_first = 1u64;
    let mut bases = [1; SESSION_COUNT];
    for lines in phases {
        let first = next_first;
        // A line's number would be wrong past 2^64. An input has at most 1,048,576 bytes, and so
        // fewer lines than that.
        next_first = first.saturating_add(lines.len() as u64 + 1);
        // An input may be of `sync` alone, and a pass is large: it isn't moved for a phase without lines.
        if lines.is_empty() {
            continue;
        }
        let phase = Phase {
            cache,
            alloc,
            first,
            lines,
            gate,
            refused: &AtomicU64::new(SESSIONS),
        };
        let (next, replies) = serve_phase(rt, &phase, pass, bases);
        pass = next;
        let replies = match replies {
            Ok(replies) => replies,
            Err(fault) => return (pass, Err(fault)),
        };
        bases = replies.bases;
        if let Err(fault) = write_texts(writer, &replies.texts) {
            return (pass, Err(fault));
        }
    }
    (pass, Ok(()))
}

/// Tells the gate how many rows are filled and what the cache has counted, if the options ask for it.
fn tell_rows<R: Wait, G: Gate>(rt: &R, cache: &Dcache, pass: &mut Pass, options: Options, gate: &G)
    requires { Fits cache.now pass.old }
    ensures same { Fits cache.now pass.new × (share pass.new ≡ share pass.old) }
    ensures nothing { NothingNew (view pass.old) (view pass.new) }
{
    if options.stats {
        // What is emptied was filled, and no session needs it any more. `Counts` would have the number, too.
        gate.ended(cache.shrink(rt, pass, u64::MAX), cache.counts());
    }
}

/// Serves what lines say, phase by phase, and writes the replies.
pub fn serve<R: Threads + Wait + Sync, G: Gate, W: Write>(
    rt: &R,
    alloc: Global,
    lines: &[Line],
    options: Options,
    gate: &G,
    writer: &mut W,
) -> Result<(), ServeFault>
    requires { are_right options.buckets options.inodes ≡ true }
    ensures ok { OnOk result (ServesLines options.inodes lines.now
        (W.contents writer.old) (W.contents writer.new)) }
    ensures err { IfErr result (ServesUntil options.inodes lines.now
        (W.contents writer.old) (W.contents writer.new)) }
{
    records_are_legal();
    let phases = phases(alloc, lines)?;
    let (cache, pass) = Dcache::new(alloc, options.buckets, options.inodes)?;
    let (mut pass, result) = serve_phases(rt, alloc, &cache, pass, &phases, gate, writer);
    tell_rows(rt, &cache, &mut pass, options, gate);
    // What was answered, after a fault too, is known to be a run once the cache is closed with the
    // pass that took all others in.
    let _ended = cache.close(pass);
    result
}
