//! The statuses that a program ends with.

ghost use Rattle.std.specs.Prelude.{◌≡◌};
ghost use Rattle.dc_serve.specs.Statuses.{status_of, words_status};

use crate::{OptionsFault, ServeFault};
use clap::error::ErrorKind;

impl ServeFault {
    /// The status that a program ends with.
    pub fn status(self) -> u8
        ensures { result ≡ status_of self }
    {
        match self {
            ServeFault::BadLine(_) => 1,
            ServeFault::BadSize => 2,
            ServeFault::NoMemory | ServeFault::Spent => 3,
            ServeFault::Read | ServeFault::Write => 4,
        }
    }
}

impl OptionsFault {
    /// The status that a program ends with: 0 if help was asked for.
    pub fn status(&self) -> u8
        ensures { result ≡ words_status self.now }
    {
        match self {
            OptionsFault::BadSize => 2,
            OptionsFault::Words(error) => match error.kind() {
                ErrorKind::DisplayHelp => 0,
                ErrorKind::OutOfMemory => 3,
                _ => 2,
            },
        }
    }
}
