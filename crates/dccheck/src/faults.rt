//! What ends the program without a verdict.

use clap::error::ErrorKind;
use dc_lang::InputFault;
use dc_names::NoMemory;
use std::alloc::{AllocError, AllocFailed};

/// Why there is no verdict.
#[derive(Drop)]
pub enum Fault {
    /// The words aren't those of the command line, or ask for help.
    Words(clap::Error),
    /// A word is no text.
    NoText,
    /// A number is outside its limits.
    BadSize,
    /// No numbers of errors have this name.
    BadErrors,
    /// Both files are standard input.
    OneInput,
    /// A file can't be read.
    Unread(File),
    /// A line of a file is none of the grammar.
    BadLine(File, u64),
    /// This line of the replies, counted from 1, isn't the reply to its command.
    Unpaired(u64),
    /// A cache of the soak was wrong, which has been said.
    Wrong,
    /// The clock can't be read.
    NoClock,
    /// The verdict couldn't be written.
    Write,
    NoMemory,
}

/// One of the files.
#[derive(Clone, Copy)]
pub enum File {
    Commands,
    Replies,
    Trace,
}

impl File {
    pub fn name(self) -> &'static str {
        match self {
            File::Commands => "COMMANDS",
            File::Replies => "REPLIES",
            File::Trace => "FILE",
        }
    }
}

impl Fault {
    /// The status that the program ends with.
    pub fn status(&self) -> u8 {
        match self {
            Fault::Words(error) => match error.kind() {
                ErrorKind::DisplayHelp => 0,
                ErrorKind::OutOfMemory => 3,
                _ => 2,
            },
            Fault::Wrong => 1,
            Fault::NoText | Fault::BadSize | Fault::BadErrors | Fault::OneInput => 2,
            Fault::NoMemory => 3,
            Fault::Unread(_) | Fault::Write | Fault::NoClock => 4,
            Fault::BadLine(..) | Fault::Unpaired(_) => 5,
        }
    }

    /// What is said of a fault that is of no file and no line.
    pub fn text(&self) -> &'static str {
        match self {
            Fault::NoText => "an argument is no text",
            Fault::BadSize => "bad size",
            Fault::BadErrors => "errors are exact, linux or posix",
            Fault::OneInput => "both files are standard input",
            Fault::Write => "write fault",
            Fault::NoClock => "the clock can't be read",
            Fault::Words(_) | Fault::NoMemory => "no memory",
            Fault::Unread(_) | Fault::BadLine(..) | Fault::Unpaired(_) | Fault::Wrong => "",
        }
    }
}

impl From<NoMemory> for Fault {
    fn from(_fault: NoMemory) -> Fault {
        Fault::NoMemory
    }
}

impl From<InputFault> for Fault {
    fn from(fault: InputFault) -> Fault {
        match fault {
            InputFault::BadLine(line) => Fault::BadLine(File::Commands, line),
            InputFault::NoMemory => Fault::NoMemory,
        }
    }
}

impl From<AllocError> for Fault {
    fn from(_fault: AllocError) -> Fault {
        Fault::NoMemory
    }
}

impl<T: Drop> From<AllocFailed<T>> for Fault {
    fn from(_fault: AllocFailed<T>) -> Fault {
        Fault::NoMemory
    }
}
