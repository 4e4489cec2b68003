// What the program answers to a line of a script that it can read, in words.
#![tactic(auto)]

mod answer;
mod help;
mod hex;
mod in_words;
mod log_on;
mod message;
mod verdict;

pub use answer::Answer;
pub use help::Help;
pub use log_on::LogOnKeys;
pub use verdict::{Processed, Reason};
