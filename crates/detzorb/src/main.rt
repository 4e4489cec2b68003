// Plays a script of commands that need no method: reads it line by line, and answers each line on the standard output.
#![tactic(auto)]

use answers::Help;
use console::{Program, Session, run};
use script::Questions;
use std::io;
use std::io::{BufRead, Write};
use std::process::ExitCode;

struct Detzorb;

impl Program for Detzorb {
    const HELP: Help = Help::Questions;

    fn play<R: BufRead, W: Write + Drop>(&self, session: &mut Session<R, W>) -> io::Result<()> {
        // A script has no bound that a proof could know, and every function has to return.
        for _ in 0..u64::MAX {
            match session.next(&Questions)? {
                Some(answer) => session.say(&answer)?,
                None => break,
            }
        }
        Ok(())
    }
}

fn main(rt: HostRuntime) -> ExitCode {
    run(&rt, &Detzorb)
}
