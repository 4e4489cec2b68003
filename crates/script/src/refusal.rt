// Why a line of a script cannot be read.
use crate::names::{Choice, Choices, CommandName, ValueName};
use std::alloc::AllocError;
use std::fmt;
use std::fmt::Display;
use thiserror::Error;

#[derive(Clone, Copy, Debug, Error)]
pub enum Refusal {
    #[error("unknown command {0}, try help")]
    UnknownCommand(Quoted),
    // The command is for a method, and none is started.
    #[error("no method is started, use card or scripted")]
    NoMethod,
    // The method takes no rows, or none any more.
    #[error("no row can be added, only to a recorded card or scripted method not yet used")]
    NoRow,
    #[error("{command} has no field {name}")]
    UnknownField { command: CommandName, name: Quoted },
    #[error("unexpected word {0}")]
    UnexpectedWord(Quoted),
    // What is wrong with the value of this name.
    #[error("{name} {fault}")]
    InValue { name: ValueName, fault: ValueFault },
    #[error("no memory left")]
    NoMemory(#[from(alloc)] AllocError),
}

#[derive(Clone, Copy, Debug, Error)]
pub enum ValueFault {
    #[error("stands twice")]
    Twice,
    #[error("is missing")]
    Missing,
    // The value is there, and does not go with the word that was chosen.
    #[error("does not go with {0}")]
    NotWith(Choice),
    #[error("is not one of {0}")]
    NotOneOf(Choices),
    #[error("is not a number from 0 to {most}")]
    NoNumber { most: u64 },
    #[error("has no hexadecimal digit at place {place}")]
    NoDigit { place: usize },
    #[error("has an odd number of digits")]
    OddDigits,
    #[error("has {bytes} bytes, not {wanted}")]
    WrongLength { bytes: usize, wanted: usize },
    #[error("has 0 bytes, fewer than 1")]
    NoBytes,
    #[error("has {bytes} bytes, more than {most}")]
    TooLong { bytes: usize, most: usize },
}

impl ValueFault {
    // The refusal for a value of this name.
    pub(crate) fn of(self, name: ValueName) -> Refusal {
        Refusal::InValue { name, fault: self }
    }
}

// The most bytes of a word that an answer repeats.
const QUOTED: usize = 40;

// A word of the script as an answer repeats it: its first bytes, and how many it has. A copy in an array: the line need not live
// as long as its refusal, and memory may have run out.
#[derive(Clone, Copy, Debug)]
pub struct Quoted {
    front: [u8; 40],
    len: usize,
}

impl Quoted {
    pub(crate) fn of(word: &[u8]) -> Quoted {
        let len = word.len();
        let shown = len.min(QUOTED);
        let mut front = [0; 40];
        front[..shown].copy_from_slice(&word[..shown]);
        Quoted { front, len }
    }
}

impl Display for Quoted {
    fn fmt<W: fmt::Write>(&self, f: &mut fmt::Formatter<W>) -> fmt::Result {
        f.write_str("'")?;
        for b in self.front.iter().take(self.len) {
            match *b {
                0x21..=0x7e => f.write_char(char::from(*b))?,
                _ => write!(f, "\\x{b:02x}")?,
            }
        }
        if self.len > QUOTED {
            f.write_str("..")?;
        }
        f.write_str("'")
    }
}
