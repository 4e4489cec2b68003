// Plays a script: reads it line by line, and answers each line on the standard output.
#![tactic(auto)]

mod play;
mod reasons;

use answers::Help;
use console::{Program, Session, run};
use play::play;
use std::io;
use std::io::{BufRead, Write};
use std::process::ExitCode;

struct Player;

impl Program for Player {
    const HELP: Help = Help::All;

    fn play<R: BufRead, W: Write + Drop>(&self, session: &mut Session<R, W>) -> io::Result<()> {
        play(session)
    }
}

fn main(rt: HostRuntime) -> ExitCode {
    run(&rt, &Player)
}
