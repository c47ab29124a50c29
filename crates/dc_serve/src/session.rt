//! How the commands of one session are answered.

ghost use Rattle.std.specs.Prelude.{◌≡◌, ◌∷◌, [], OnOk, IfOk, IfErr, length};
ghost use Rattle.dc_cache.specs.Passes.{share, Fits};
ghost use Rattle.dc_lang.specs.Commands.{order_of};
ghost use Rattle.dc_serve.specs.Bytes.{IsServiceFault};
ghost use Rattle.dc_lang.specs.Phases.{ordered_by};
ghost use Rattle.dc_serve.specs.Served.{Obeys, ObeysFrom};
ghost use Rattle.dc_serve.specs.Sessions.{RecordedSome};
ghost use Rattle.dc_serve.specs.Threads.{GaveBack, book};

use crate::calls::answer;
use crate::{Gate, ServeFault};
use dc_cache::{Dcache, Pass};
use dc_lang::{Command, Line, base_after, call, write_reply};
use std::alloc::Global;
use std::sync::Wait;
use std::sync::atomic::{AtomicU64, Ordering};

/// What a session is answered in a phase, and where it starts from then on.
#[derive(Drop)]
pub struct SessionReplies {
    pub text: Vec<u8>,
    pub base: u64,
}

/// The lines of a phase, and what serves its sessions.
#[derive(Drop)]
pub struct Phase<'a, G: Gate> {
    pub cache: &'a Dcache,
    pub alloc: Global,
    /// The number of its first line.
    pub first: u64,
    pub lines: &'a [Line],
    pub gate: &'a G,
    /// The last session for which no thread could be started, or `SESSIONS`.
    pub refused: &'a AtomicU64,
}

impl<'a, G: Gate> Phase<'a, G> {
    /// Answers a command, after the text.
    fn obey<R: Wait>(
        &self,
        rt: &R,
        pass: &mut Pass,
        command: &Command,
        replies: &mut SessionReplies,
    ) -> Result<(), ServeFault>
        requires { Fits self.now.cache.now pass.old }
        ensures same { Fits self.now.cache.now pass.new × (share pass.new ≡ share pass.old) }
        ensures recorded { RecordedSome 1 (book pass.old) (book pass.new) }
        ensures ok { OnOk result (Obeys pass.old replies.old (order_of command.now ∷ [])
            replies.new pass.new) }
        ensures err { IfErr result (IsServiceFault (book pass.new).seen) }
    {
        let (cache, alloc, gate) = (self.cache, self.alloc, self.gate);
        let stamped = answer(rt, alloc, cache, pass, &call(command, replies.base), gate)?;
        let line = write_reply(alloc, command.session, &stamped)?;
        replies.text.extend_from_slice(&line)?;
        replies.base = base_after(command, &stamped.reply, replies.base);
        Ok(())
    }

    /// Answers a line if it is a command of the session, after the text.
    fn serve_line<R: Wait>(
        &self,
        rt: &R,
        pass: &mut Pass,
        session: u64,
        number: u64,
        line: &Line,
        replies: &mut SessionReplies,
    ) -> Result<(), ServeFault>
        requires { Fits self.now.cache.now pass.old }
        ensures same { Fits self.now.cache.now pass.new × (share pass.new ≡ share pass.old) }
        ensures recorded { RecordedSome (length (ordered_by session (line.now ∷ [])))
            (book pass.old) (book pass.new) }
        ensures ok { OnOk result (Obeys pass.old replies.old
            (ordered_by session (line.now ∷ [])) replies.new pass.new) }
        ensures err { IfErr result (IsServiceFault (book pass.new).seen) }
    {
        let Line::Command(command) = line else {
            return Ok(());
        };
        if command.session != session {
            return Ok(());
        }
        self.gate.before(session, number);
        self.obey(rt, pass, command, replies)?;
        self.gate.after(session, number);
        Ok(())
    }

    /// Answers the commands of a session, which starts at `base`.
    pub fn serve_lines<R: Wait>(
        &self,
        rt: &R,
        pass: &mut Pass,
        session: u64,
        base: u64,
    ) -> Result<SessionReplies, ServeFault>
        requires { Fits self.now.cache.now pass.old }
        ensures same { Fits self.now.cache.now pass.new × (share pass.new ≡ share pass.old) }
        ensures recorded { RecordedSome (length (ordered_by session self.now.lines.now))
            (book pass.old) (book pass.new) }
        ensures ok { IfOk result (ObeysFrom pass.old base
            (ordered_by session self.now.lines.now) pass.new) }
        ensures err { IfErr result (IsServiceFault (book pass.new).seen) }
    {
        let mut replies = SessionReplies {
            text: Vec::new(self.alloc),
            base,
        };
        for (at, line) in self.lines.iter().enumerate() {
            // The sum would be wrong past 2^64, which no number of a line of the input comes near.
            let number = self.first.saturating_add(at as u64);
            self.serve_line(rt, pass, session, number, line, &mut replies)?;
        }
        Ok(replies)
    }

    /// Answers the commands of a session with a pass that it gives back, unless no thread could be
    /// started for it: then it is the only way to its pass, and answers nothing.
    pub fn serve_session<R: Wait>(
        &self,
        rt: &R,
        mut pass: Pass,
        session: u64,
        base: u64,
    ) -> (Pass, Result<SessionReplies, ServeFault>)
        requires { Fits self.now.cache.now pass }
        ensures { GaveBack self.now.cache.now pass base
            (ordered_by session self.now.lines.now) result.0 result.1 }
    {
        if self.refused.load(Ordering::SeqCst) == session {
            return (pass, Err(ServeFault::NoMemory));
        }
        let replies = self.serve_lines(rt, &mut pass, session, base);
        (pass, replies)
    }
}
