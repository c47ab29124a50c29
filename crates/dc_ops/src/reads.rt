//! Calls that alter nothing.

ghost use Rattle.std.specs.Prelude.{◌≡◌, ◌+◌, ◌*◌, ℕ, IfOk, OnErr, length};
ghost use Rattle.dc_names.specs.declared.limits.TheConstants.{MOST_LINKS};
ghost use Rattle.dc_names.specs.Refusals.{Gives};
ghost use Rattle.dc_plain.specs.Reads.{look, stat, readlink, list_names};
ghost use Rattle.dc_plain.specs.Requests.{answer_of, request_of};
ghost use Rattle.dc_plain.specs.Refusals.{walk_on};
ghost use Rattle.dc_ops.specs.Asked.{IsSought, IsToldAtLength};
ghost use Rattle.dc_plain.specs.Runs.{reply_of};
ghost use Rattle.dc_ops.specs.Reads.{answered, IsAtLength};
ghost use Rattle.dc_ops.specs.Settled.{DeclinesCall, RepliesBy};
ghost use Rattle.dc_resolve.specs.Ends.{walk_by};
ghost use Rattle.dc_resolve.specs.Finders.{KeepsAnswering};
ghost use Rattle.dc_resolve.specs.Needs.{MayAsk};

use crate::paths::{path_of, walk_path};
use dc_names::{NoMemory, PathText, Refusal};
use dc_plain::{
    Call, Follow, Reply, Target, alters_tells_whether_trees_differ, paths_lead_to_the_living,
};
use dc_resolve::{Finder, Walked, walk};
use dc_store::Store;
use std::alloc::Global;

/// Where a text leads, or its refusal.
fn walk_text<S: Store>(store: &S, base: u64, text: &[u8], follow: Follow) -> Result<Target, Refusal>
    ensures { Gives result (λ target. target) (walk_on (S.tree store.now) base text.now follow) }
{
    walk_path(store, base, path_of(text)?, follow)
}

/// Answers `Look` (POSIX.1-2017 XBD 4.13) or `Stat`. It takes no memory.
pub fn seek<S: Store>(store: &S, call: &Call<'_>) -> Reply
    requires { IsSought call.now }
    ensures { (limit : ℕ) → DeclinesCall limit (S.tree store.now) call.now result }
{
    alters_tells_whether_trees_differ();
    match *call {
        Call::Look { base, path, follow } => look(store, base, path, follow),
        Call::Stat { base, path } => stat(store, base, path),
        // Another call takes memory or alters the tree, and the caller knows that this one doesn't.
        Call::Readlink { .. }
        | Call::List { .. }
        | Call::Mkdir { .. }
        | Call::Create { .. }
        | Call::Link { .. }
        | Call::Symlink { .. }
        | Call::Unlink { .. }
        | Call::Rmdir { .. }
        | Call::Rename { .. } => unreachable!(),
    }
}

/// Answers a `Look` by what a finder says of a tree, or why the finder gave up.
pub fn look_by<F: Finder>(
    finder: &mut F,
    base: u64,
    path: PathText<'_>,
    follow: Follow,
) -> Result<Reply, F::Stop>
    requires may { MayAsk F.Finder finder.old (walk_by base path.bytes.now follow) }
    requires spend { F.may_spend finder.old
        (2 + length path.bytes.now + MOST_LINKS * F.link_bytes) }
    ensures reply { IfOk result (RepliesBy (F.said finder.new) base path.entry.bytes.now follow) }
    ensures kept { KeepsAnswering F.Finder finder.old finder.new result }
{
    alters_tells_whether_trees_differ();
    match walk(finder, base, path, follow)? {
        Walked::Found((number, kind)) => Ok(Reply::Found(number, kind)),
        Walked::Refused(refusal) => Ok(Reply::Refused(refusal.number())),
    }
}

fn look<S: Store>(store: &S, base: u64, path: &[u8], follow: Follow) -> Reply
    ensures { answer_of result ≡ answered (look (S.tree store.now) base path.now follow) }
{
    match walk_text(store, base, path, follow) {
        Ok((number, kind)) => Reply::Found(number, kind),
        Err(refusal) => Reply::Refused(refusal.number()),
    }
}

fn stat<S: Store>(store: &S, base: u64, path: &[u8]) -> Reply
    ensures { answer_of result ≡ answered (stat (S.tree store.now) base path.now) }
{
    paths_lead_to_the_living();
    match walk_text(store, base, path, Follow::Yes) {
        Ok((number, kind)) => Reply::Stat(number, kind, store.count(number)),
        Err(refusal) => Reply::Refused(refusal.number()),
    }
}

/// Answers `Readlink` or `List`. `NoMemory` if memory for the text or the names was refused: never
/// in the place of a refusal.
pub fn ask<S: Store>(alloc: Global, store: &S, call: &Call<'_>) -> Result<Reply, NoMemory>
    requires { IsToldAtLength call.now }
    ensures ok { IfOk result (λ reply. (limit : ℕ) →
        DeclinesCall limit (S.tree store.now) call.now reply) }
    ensures err { OnErr result ((limit : ℕ) →
        IsAtLength (reply_of limit (S.tree store.now) (request_of call.now))) }
{
    alters_tells_whether_trees_differ();
    match *call {
        Call::Readlink { base, path } => read_link(alloc, store, base, path),
        Call::List { base, path } => list(alloc, store, base, path),
        // Another call takes no memory or alters the tree, and the caller knows that this one doesn't.
        Call::Look { .. }
        | Call::Stat { .. }
        | Call::Mkdir { .. }
        | Call::Create { .. }
        | Call::Link { .. }
        | Call::Symlink { .. }
        | Call::Unlink { .. }
        | Call::Rmdir { .. }
        | Call::Rename { .. } => unreachable!(),
    }
}

fn read_link<S: Store>(alloc: Global, store: &S, base: u64, path: &[u8]) -> Result<Reply, NoMemory>
    ensures ok { IfOk result (λ reply.
        answer_of reply ≡ answered (readlink (S.tree store.now) base path.now)) }
    ensures err { OnErr result
        (IsAtLength (answered (readlink (S.tree store.now) base path.now))) }
{
    let number = match walk_text(store, base, path, Follow::No) {
        Ok((number, _)) => number,
        Err(refusal) => return Ok(Reply::Refused(refusal.number())),
    };
    match store.text(number) {
        Some(text) => Ok(Reply::Text(Vec::from_slice(alloc, text)?)),
        None => Ok(Reply::Refused(Refusal::Invalid.number())),
    }
}

fn list<S: Store>(alloc: Global, store: &S, base: u64, path: &[u8]) -> Result<Reply, NoMemory>
    ensures ok { IfOk result (λ reply.
        answer_of reply ≡ answered (list_names (S.tree store.now) base path.now)) }
    ensures err { OnErr result
        (IsAtLength (answered (list_names (S.tree store.now) base path.now))) }
{
    match walk_text(store, base, path, Follow::Dir) {
        Ok((number, _)) => Ok(Reply::Names(store.list(alloc, number)?)),
        Err(refusal) => Ok(Reply::Refused(refusal.number())),
    }
}
