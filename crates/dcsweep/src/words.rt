//! The lines of an input written again, and the words of the server's command line, where an allocation is
//! refused.

use crate::fault::Fault;
use crate::lines::Input;
use crate::probe::{Plan, told};
use crate::told::Told;
use dc_lang::{Line, write_line};
use dc_names::NoMemory;
use dc_serve::options;
use std::alloc::Global;

/// All lines, each with its newline.
fn text_of(alloc: Global, lines: &[Line]) -> Result<Vec<u8>, NoMemory> {
    let mut text = Vec::new(alloc);
    for line in lines {
        text.extend_from_slice(&write_line(alloc, line)?)?;
        text.push(b'\n')?;
    }
    Ok(text)
}

/// Writes the lines, and then once more.
fn write(alloc: Global, plan: &Plan<'_>, input: &Input<'_>) -> Result<Told, Fault> {
    let written = text_of(alloc, &input.lines);
    let place = plan.place(alloc);
    let answered = match written {
        Ok(text) => {
            if text.as_slice() != input.bytes {
                return Ok(Told::Wrong("the lines"));
            }
            true
        }
        Err(NoMemory) => false,
    };
    if text_of(alloc, &input.lines)?.as_slice() != input.bytes {
        return Ok(Told::Wrong("the lines afterwards"));
    }
    Ok(told(place, answered))
}

/// Reads words of the command line, and then once more.
fn choose(alloc: Global, plan: &Plan<'_>, words: &[String]) -> Told {
    let chosen = options(alloc, words);
    let place = plan.place(alloc);
    if options(alloc, words).is_err() {
        return Told::Wrong("no options with memory");
    }
    told(place, chosen.is_ok())
}

/// Makes the trial.
pub fn trial(alloc: Global, plan: &Plan<'_>, input: &Input<'_>) -> Result<Told, Fault> {
    let mut words = Vec::new(alloc);
    for word in ["--buckets", "16", "--inodes", "64"] {
        words.push(String::from_str(alloc, word)?)?;
    }
    if plan.setup {
        return Ok(told(plan.place(alloc), true));
    }
    if plan.name == "options" {
        return Ok(choose(alloc, plan, &words));
    }
    write(alloc, plan, input)
}
