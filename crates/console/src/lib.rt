// What the programs that play a script have in common: its lines and their answers, the arguments and the status.
#![tactic(auto)]

mod program;
mod session;

pub use program::{Program, run};
pub use session::Session;

#[cfg(test)]
mod tests;
