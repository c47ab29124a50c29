//! Who does what: the events of a core.

use dc_plain::Call;

/// One step of one actor on one shared word, or an act that touches no word.
#[derive(Clone, Copy)]
pub struct Event<'a> {
    /// Who acts, from 0 on.
    pub actor: u64,
    /// What is done.
    pub act: Act<'a>,
}

/// What an actor may do. Rows and notes count from 0.
#[derive(Clone, Copy)]
pub enum Act<'a> {
    /// A call becomes the actor's; it has no notes and no pivot yet.
    Begin(Call<'a>),
    /// The actor gets the lock, and with it the tree, and sees the clock.
    Take,
    /// The count of a row becomes odd.
    Shut(u64),
    /// A word of an odd row gets a value: the row, the word, the value, in this order.
    Write(u64, u64, u64),
    /// The count of a row becomes even.
    Open(u64),
    /// The actor's call alters the tree and is recorded; the clock grows by one.
    Commit,
    /// The lock is given back, and if this is true the actor's call, which alters nothing, is
    /// recorded.
    Give(bool),
    /// The count of a row is noted.
    Note(u64),
    /// The last note gets the next word of its row.
    Read,
    /// The clock is loaded. It is the point at which a look-up is answered.
    Pivot,
    /// The count of a note's row is compared with what was noted.
    Check(u64),
    /// Notes and pivot are dropped; the call stays.
    Again,
    /// The call is given up.
    Quit,
}
