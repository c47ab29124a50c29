//! A finder that keeps the directories in which it is asked.

ghost use Rattle.std.specs.Prelude.{◌≡◌, ◌≤◌, false, length, take, IfSome, IfNone};
ghost use Rattle.dc_trail.specs.Keeping.{entered, goes_so, halts_so, keeps_so, said_in, stays_so, Goes, Halts, MayAskAlong};
ghost use Rattle.dc_trail.specs.Questions.{is_among};

use crate::halt::Halt;
use dc_names::{Kind, Part, PathText, hash};
use dc_plain::Follow;
use dc_resolve::Finder;

/// What a walk asks.
#[derive(Clone, Copy)]
pub(crate) struct Question<'a> {
    pub base: u64,
    pub path: PathText<'a>,
    pub follow: Follow,
}

/// Answers the questions of a walk as its finder does, and keeps the directories in which they are asked,
/// each once, in their order.
#[derive(Drop)]
pub(crate) struct Trailed<'a, F> {
    pub finder: &'a mut F,
    pub numbers: &'a mut [u64],
    pub len: usize,
    pub question: Question<'a>,
}

/// Whether a number is among others.
fn has_number(numbers: &[u64], number: u64) -> bool
    ensures { result ≡ is_among numbers.now number }
{
    numbers.iter().any(|n| *n == number)
}

/// Puts a directory behind those that were seen, unless it is among them, and answers how many there are
/// then. `None` if there is no place for it.
fn enter(numbers: &mut [u64], len: usize, dir: u64) -> Option<usize>
    requires few { len ≤ length numbers.old }
    ensures places { length numbers.new ≡ length numbers.old }
    ensures entered { IfSome result (λ many. (many ≤ length numbers.old)
        × (take many numbers.new ≡ entered (take len numbers.old) dir)) }
    ensures full { IfNone result ((numbers.new ≡ numbers.old) × (len ≡ length numbers.old)
        × (is_among (take len numbers.old) dir ≡ false)) }
{
    if has_number(&numbers[..len], dir) {
        return Some(len);
    }
    if len == numbers.len() {
        return None;
    }
    numbers[len] = dir;
    Some(len + 1)
}

impl<'a, F: Finder> Finder for Trailed<'a, F> {
    type Text = F::Text;

    type Stop = Halt<F::Stop>;

    ghost said = { λ f. said_in F.Finder f };

    ghost becomes = { λ f h. Goes F.Finder f h };

    ghost stops = { λ f h halt. Halts F.Finder f h halt };

    ghost may_ask = { λ f n label. MayAskAlong F.Finder f n label };

    ghost may_spend = { λ f n. F.may_spend f.finder.now n };

    ghost link_bytes = { F.link_bytes };

    fn find(&mut self, dir: u64, part: Part<'_>) -> Result<Option<(u64, Kind)>, Halt<F::Stop>> {
        let bytes = match part {
            Part::Normal(name) => name.bytes(),
            // A dot asks nothing.
            Part::Dot | Part::DotDot => b"..",
        };
        self.find_hashed(dir, part, hash(dir, bytes))
    }

    #[tactic(auto, using(crate::proofs::Asking::goes_asked, crate::proofs::Asking::is_full, crate::proofs::Telling::told_there))]
    fn find_hashed(
        &mut self,
        dir: u64,
        part: Part<'_>,
        hash: u64,
    ) -> Result<Option<(u64, Kind)>, Halt<F::Stop>> {
        // Before the finder is asked: it may give up, and it was asked here then.
        let Some(len) = enter(self.numbers, self.len, dir) else {
            return Err(Halt::Full);
        };
        self.len = len;
        match self.finder.find_hashed(dir, part, hash) {
            Ok(found) => Ok(found),
            Err(stop) => Err(Halt::Finder(stop)),
        }
    }

    fn link_text(&mut self, number: u64) -> Result<F::Text, Halt<F::Stop>> {
        match self.finder.link_text(number) {
            Ok(text) => Ok(text),
            Err(stop) => Err(Halt::Finder(stop)),
        }
    }

    ghost stays = { stays_so _ F.stays };

    ghost goes_on = { goes_so _ F.goes_on };

    ghost stops_later = { halts_so _ F.goes_on F.stops_later };

    ghost keeps = { keeps_so _ };

    ghost spends_less = { λ f a b may. F.spends_less f.finder.now a b may };
}
