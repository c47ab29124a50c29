//! The lines of a trial: those before its call, and the call.

use crate::fault::Fault;
use dc_lang::{Command, Line, read_lines};
use std::alloc::Global;

/// The lines of a trial.
#[derive(Drop)]
pub struct Input<'a> {
    pub bytes: &'a [u8],
    pub lines: Vec<Line>,
}

impl<'a> Input<'a> {
    /// What bytes say.
    pub fn of(alloc: Global, bytes: &'a [u8]) -> Result<Input<'a>, Fault> {
        let lines = read_lines(alloc, bytes)?;
        Ok(Input { bytes, lines })
    }

    /// The lines before the last.
    pub fn before(&self) -> &[Line] {
        match self.lines.split_last() {
            Some((_last, before)) => before,
            None => &[],
        }
    }

    /// The last line's command.
    pub fn last(&self) -> Result<&Command, Fault> {
        match self.lines.last() {
            Some(Line::Command(command)) => Ok(command),
            _ => Err(Fault::Words),
        }
    }
}
