//! A law of walks, as the contract of a walk that has nothing to ask.

ghost use Rattle.std.specs.Prelude.{◌≡◌, [], true, Some, IsSome};
ghost use Rattle.dc_names.specs.Paths.{path_in};
ghost use Rattle.dc_plain.specs.Facts.{told_by};
ghost use Rattle.dc_plain.specs.Places.{walk};
ghost use Rattle.dc_resolve.specs.Ends.{outcome_shown};
ghost use Rattle.dc_resolve.specs.Unasked.{said_if, nothing_stays, itself, after_both, before_both};

use crate::{Finder, Walked, walk};
use dc_names::{Kind, Part, PathText};
use dc_plain::Follow;

/// A finder that gives up whatever it is asked. It may be asked only once it has stopped, so one that
/// hasn't stopped is never asked.
#[derive(Drop)]
struct Unasked {
    stopped: bool,
}

/// It was asked.
#[derive(Drop)]
struct WasAsked;

impl Finder for Unasked {
    type Text = &'static [u8];

    type Stop = WasAsked;

    ghost said = { λ f. said_if f.stopped };

    ghost becomes = { λ f g. g.stopped ≡ f.stopped };

    ghost stops = { λ f g why. f.stopped ≡ true };

    ghost may_ask = { λ f number label. f.stopped ≡ true };

    ghost may_spend = { λ f n. Unit {0} };

    ghost link_bytes = { 0 };

    fn find(&mut self, _dir: u64, _part: Part<'_>) -> Result<Option<(u64, Kind)>, WasAsked> {
        Err(WasAsked)
    }

    fn link_text(&mut self, _number: u64) -> Result<&'static [u8], WasAsked> {
        Err(WasAsked)
    }

    ghost stays = { λ f. itself f.stopped };

    ghost goes_on = { λ f g h p q. after_both f.stopped g.stopped h.stopped p q };

    ghost stops_later = { λ f g h why p q. before_both f.stopped g.stopped true p q };

    ghost keeps = { λ f g p. nothing_stays f.stopped g.stopped p };

    ghost spends_less = { λ f a b may. may };
}

/// Where a path leads that needs no fact, as `/..`. A walk asks only for what it needs, so it asks
/// nothing here.
#[must_use]
pub fn walk_alone(base: u64, path: PathText<'_>, follow: Follow) -> Walked
    requires { IsSome (walk (told_by []) base (path_in path.bytes.now) follow) }
    ensures { Some (outcome_shown result) ≡ walk (told_by []) base (path_in path.entry.bytes.now) follow }
{
    match walk(&mut Unasked { stopped: false }, base, path, follow) {
        Ok(walked) => walked,
        // A finder that hasn't stopped isn't asked, and so never gives up.
        Err(WasAsked) => unreachable!(),
    }
}
