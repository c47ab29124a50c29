//! The text of a row: a name, or what a link has.

ghost use Rattle.std.specs.Prelude.{◌≡◌, ◌≤◌, ◌<◌, ℕ, List, length, take, IfSome, IfNone};
ghost use Rattle.dc_row.specs.Rooms.{padded};
ghost use Rattle.dc_names.specs.declared.limits.TheConstants.{ROW_TEXT};

use crate::{ROW_ROOM, ROW_TEXT};
use std::marker::Model;

/// The bytes of a name or of a link's text, as many as a row has room for.
#[derive(Debug, Drop, PartialEq, Eq)]
pub struct RowText {
    room: [u8; ROW_ROOM],
    len: usize,
}

impl Model for RowText {
    ghost use Rattle.std.specs.Prelude.{List, ℕ};

    ghost Value = { List ℕ };

    ghost use Rattle.dc_row.specs.Rooms.{text_in, IsPadded, in_room, in_room-text_in};

    ghost view = { text_in };

    ghost invariant = { IsPadded };

    ghost inverse = { in_room };

    ghost inverse_ok = { in_room-text_in };
}

impl RowText {
    /// The bytes by value, or `None` if they are more than a row has room for.
    #[must_use]
    pub fn of(bytes: &[u8]) -> Option<RowText>
        ensures bytes { IfSome result (λ text. text ≡ bytes.now) }
        ensures none { IfNone result (ROW_TEXT < length bytes.now) }
    {
        if bytes.len() > ROW_TEXT {
            return None;
        }
        let mut room = [0; ROW_ROOM];
        room[..bytes.len()].copy_from_slice(bytes);
        Some(RowText {
            room,
            len: bytes.len(),
        })
    }

    /// The first bytes of a room that has zeros after them.
    // Inlined, as is `spelled_text`, its one caller.
    #[inline(always)]
    pub(crate) fn from_room(room: [u8; ROW_ROOM], len: usize) -> RowText
        requires fits { len ≤ ROW_TEXT }
        requires zeros { padded (take len room) ≡ room }
        ensures { result ≡ take len room }
    {
        RowText { room, len }
    }

    /// The bytes that stand in the room.
    #[must_use]
    pub fn bytes(&self) -> &[u8]
        ensures bytes { result.now ≡ self.now }
        ensures room { length result.now ≤ ROW_TEXT }
    {
        &self.room[..self.len]
    }
}
