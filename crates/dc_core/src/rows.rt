//! The rows of the shared words.

ghost use Rattle.std.specs.Prelude.{◌≡◌, ◌<◌, ◌+◌, get_or, length};
ghost use Rattle.dc_events.specs.Rows.{base_of, count, row_words};

use crate::actor::Note;
use crate::state::State;
use dc_row::ROW_WORDS;

impl State {
    /// How many calls have altered the tree.
    pub fn clock(&self) -> u64
        requires { length self.now.words.items ≡ base_of self.now.rows }
        ensures { result ≡ get_or self.now.words.items 0 0 }
    {
        self.words[0]
    }

    /// Where the words of a row begin.
    pub fn base(&self, row: u64) -> usize
        requires wide { length self.now.words.items ≡ base_of self.now.rows }
        requires room { row < self.now.rows }
        ensures { result ≡ base_of row }
    {
        // For the proof: the words are so few that their places are no numbers too great.
        let _words = self.words.len();
        2 + row as usize * ROW_WORDS
    }

    /// The count of a row.
    pub fn count(&self, row: u64) -> u64
        requires wide { length self.now.words.items ≡ base_of self.now.rows }
        requires room { row < self.now.rows }
        ensures { result ≡ count self.now.words.items row }
    {
        self.words[self.base(row)]
    }

    /// The words of a row.
    pub fn row(&self, row: u64) -> &[u64]
        requires wide { length self.now.words.items ≡ base_of self.now.rows }
        requires room { row < self.now.rows }
        ensures { result.now ≡ row_words self.now.words.items row }
    {
        let base = self.base(row);
        &self.words[base..base + ROW_WORDS]
    }

    /// The word that a note reads next.
    pub fn word_after(&self, note: &Note) -> u64
        requires wide { length self.now.words.items ≡ base_of self.now.rows }
        requires room { note.now.row < self.now.rows }
        requires few { length note.now.words.items < ROW_WORDS }
        ensures { result ≡ get_or self.now.words.items
            (base_of note.now.row + length note.now.words.items) 0 }
    {
        self.words[self.base(note.row) + note.words.len()]
    }
}
