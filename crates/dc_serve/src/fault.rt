//! Why an input isn't answered, and why there are no options.

use thiserror::Error;

/// Why an input wasn't answered in whole.
#[derive(Clone, Copy, Debug, PartialEq, Eq, Error)]
pub enum ServeFault {
    /// A size is outside its limits.
    #[error("bad size")]
    BadSize,
    /// The input couldn't be read, or is too long.
    #[error("read fault")]
    Read,
    /// This line, counted from 1, is none of the grammar.
    #[error("bad line {0}")]
    BadLine(u64),
    /// Memory or a thread was refused.
    #[error("no memory")]
    NoMemory,
    /// The clock stands at its limit, which no input is long enough to bring it to.
    #[error("spent")]
    Spent,
    /// The replies couldn't be written in whole.
    #[error("write fault")]
    Write,
}

/// Why there are no options.
#[derive(Debug, Drop, Error)]
pub enum OptionsFault {
    /// The words aren't those of the command line, or ask for help.
    #[error("{0}")]
    Words(clap::Error),
    /// The text of a size is no number of 64 bits.
    #[error("bad size")]
    BadSize,
}
