//! The keys that a plan touches.

ghost use Rattle.std.specs.Prelude.{◌≡◌, ◌<◌, ◌≤◌, ◌+◌, ◌∷◌, ◌++◌};
ghost use Rattle.dc_plain.specs.Spots.{spot_shown};
ghost use Rattle.dc_plain.specs.TouchedKeys.{spot_key};
ghost use Rattle.std.specs.Option.{option_to_list};
ghost use Rattle.arrayvec.specs.ArrayVec.{array_vec_len};
ghost use Rattle.dc_names.specs.declared.limits.TheConstants.{MOST_TOUCHED};
ghost use Rattle.dc_plain.specs.KeysShown.{keys_in};
ghost use Rattle.dc_ops.specs.Keys.{keys_at, keys_made, keys_of, keys_reparented, keys_shown};

use crate::{Moved, Plan};
use arrayvec::ArrayVec;
use dc_names::Kind;
use dc_plain::{Key, MOST_TOUCHED, Spot};
use dc_store::New;

impl<'a> Plan<'a> {
    /// The keys whose facts it alters, four at most: its names, the dot-dot of a directory that
    /// comes, goes or gets another parent, and the text of a link that comes or goes.
    #[must_use]
    pub fn keys(&self) -> ArrayVec<Key<'a>, MOST_TOUCHED>
        ensures { keys_shown result.items ≡ keys_of self.now }
    {
        match *self {
            Plan::Add {
                dir,
                name,
                new,
                number,
            } => one_name(Spot { dir, name }, made_key(number, new)),
            Plan::Drop {
                dir,
                name,
                lost,
                ..
            } => one_name(Spot { dir, name }, lost),
            Plan::Move {
                from,
                to,
                number,
                reparents,
                lost,
                ..
            } => two_names(from, to, parent_key(number, reparents), lost),
            Plan::Swap {
                from,
                to,
                first,
                second,
            } => two_names(from, to, first.parent_key(), second.parent_key()),
        }
    }
}

/// The keys of a name and of an inode's own, if there is one.
fn one_name<'a>(name: Spot<'a>, own: Option<Key<'a>>) -> ArrayVec<Key<'a>, MOST_TOUCHED>
    ensures { keys_shown result.items ≡ spot_key (spot_shown name.entry) ∷ keys_in own.entry }
{
    let mut keys = ArrayVec::new();
    keys.push(Key::from(name));
    push_some(&mut keys, own);
    keys
}

/// The keys of two names, and those of an inode's own that there are.
fn two_names<'a>(
    from: Spot<'a>,
    to: Spot<'a>,
    own: Option<Key<'a>>,
    other: Option<Key<'a>>,
) -> ArrayVec<Key<'a>, MOST_TOUCHED>
    ensures { keys_shown result.items
        ≡ keys_at from.entry to.entry ++ keys_in own.entry ++ keys_in other.entry }
{
    let mut keys = ArrayVec::new();
    keys.push(Key::from(from));
    keys.push(Key::from(to));
    push_some(&mut keys, own);
    push_some(&mut keys, other);
    keys
}

impl Moved {
    /// Its dot-dot, if it is a directory that gets another parent.
    fn parent_key<'a>(self) -> Option<Key<'a>>
        ensures { keys_in result ≡ keys_reparented self.number self.reparents }
    {
        parent_key(self.number, self.reparents)
    }
}

/// Adds a key, if there is one.
fn push_some<'a>(keys: &mut ArrayVec<Key<'a>, MOST_TOUCHED>, key: Option<Key<'a>>)
    requires { array_vec_len keys.old < MOST_TOUCHED }
    ensures items { keys.new.items ≡ keys.old.items ++ option_to_list key.entry }
    ensures len { array_vec_len keys.new ≤ array_vec_len keys.old + 1 }
{
    if let Some(key) = key {
        keys.push(key);
    }
}

/// The dot-dot of a directory that gets another parent.
fn parent_key<'a>(number: u64, reparents: bool) -> Option<Key<'a>>
    ensures { keys_in result ≡ keys_reparented number reparents }
{
    if !reparents {
        return None;
    }
    Key::own(number, Kind::Dir)
}

/// The key of its own that what is added has, if that is new.
fn made_key<'a>(number: u64, new: New<'_>) -> Option<Key<'a>>
    ensures { keys_in result ≡ keys_made number new.entry }
{
    match new {
        New::Dir => Key::own(number, Kind::Dir),
        New::Link(_) => Key::own(number, Kind::Link),
        New::File | New::Same(_) => None,
    }
}
