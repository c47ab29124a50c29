//! How far a long run is, for whoever waits at a terminal.

use std::io::IsTerminal;
use std::time::Instant;

/// How many seconds a run is silent.
const SILENT: u64 = 1;

/// When a run began, if someone may want to know.
#[derive(Clone, Copy)]
pub struct Progress {
    begin: Option<Instant>,
}

impl Progress {
    /// Of a run that begins.
    pub fn new(rt: &HostRuntime) -> Progress {
        let begin = if rt.stderr().is_terminal() {
            Instant::now(rt).ok()
        } else {
            None
        };
        Progress { begin }
    }

    /// Tells what comes now, on standard error if that is a terminal and the run takes long.
    pub fn tell(&self, rt: &HostRuntime, what: &str) {
        let Some(begin) = &self.begin else {
            return;
        };
        match begin.elapsed(rt) {
            Ok(took) if took.as_secs() >= SILENT => {
                let _ = eprintln!(rt; "dccheck: after {} s: {what}", took.as_secs());
            }
            _ => {}
        }
    }
}
