// Reads a line of a script: what it asks for, or why it cannot be read.
#![tactic(auto)]

mod commands;
mod hex;
mod methods;
mod names;
mod questions;
mod refusal;
mod values;
mod words;

pub use commands::{Command, Grammar, Questions, Stage, command_of};
pub use methods::{Request, Start, Use};
pub use names::{
    CardKind, CardWord, Choice, Choices, CommandName, MethodCommand, MethodWord, Question,
    ValueName,
};
pub use refusal::{Quoted, Refusal, ValueFault};
