// A program that plays scripts: what its arguments ask for, and its status.
use crate::session::Session;
use answers::Help;
use std::fs::File;
use std::io::{BufRead, BufReader, BufWriter, Read, Stdout, Write};
use std::process::ExitCode;
use std::{env, io};

pub trait Program {
    // The commands that it knows.
    const HELP: Help;

    // Answers every line of the script.
    fn play<R: BufRead, W: Write + Drop>(&self, session: &mut Session<R, W>) -> io::Result<()>;
}

const USAGE: &str = "usage: detzorb [FILE]
Plays a script from FILE, or from the standard input, and answers each of its lines.
A line that cannot be read is answered with its number and what is wrong, and the script goes on.
The status is 1 if a line could not be read, else 0. The commands:";

// Why the program ends with status 1.
#[derive(Drop)]
enum Ended {
    LineUnread,
    // A message on the standard error has said why.
    Told,
    Io(io::Error),
}

impl From<io::Error> for Ended {
    fn from(error: io::Error) -> Ended {
        Ended::Io(error)
    }
}

// A script from this input, answered on the standard output.
fn session_over<R: Read + Drop>(
    rt: &HostRuntime,
    input: R,
) -> io::Result<Session<BufReader<R>, Stdout>> {
    let out = BufWriter::new(rt.alloc(), rt.stdout())?;
    let input = BufReader::new(rt.alloc(), input)?;
    Ok(Session::new(rt.alloc(), input, out))
}

// Plays the script, of which every line should be readable.
fn play<P: Program, R: BufRead, W: Write + Drop>(
    program: &P,
    session: &mut Session<R, W>,
) -> Result<(), Ended> {
    program.play(session)?;
    if session.finish()? {
        Ok(())
    } else {
        Err(Ended::LineUnread)
    }
}

fn play_file<P: Program>(rt: &HostRuntime, program: &P, path: &str) -> Result<(), Ended> {
    let file = match File::open(rt, path) {
        Ok(file) => file,
        Err(error) => {
            eprintln!(rt; "detzorb: cannot open {path}: {error}")?;
            return Err(Ended::Told);
        }
    };
    match play(program, &mut session_over(rt, file)?) {
        Err(Ended::Io(error)) => {
            eprintln!(rt; "detzorb: {path}: {error}")?;
            Err(Ended::Told)
        }
        played => played,
    }
}

fn play_input<P: Program>(rt: &HostRuntime, program: &P) -> Result<(), Ended> {
    play(program, &mut session_over(rt, rt.stdin())?)
}

fn show_help(rt: &HostRuntime, help: Help) -> Result<(), Ended> {
    println!(rt; "{USAGE}\n{help}")?;
    Ok(())
}

fn refuse_arguments(rt: &HostRuntime) -> Result<(), Ended> {
    eprintln!(rt; "detzorb: the arguments are not understood, try detzorb --help")?;
    Err(Ended::Told)
}

// Does what the arguments ask for.
fn obey<P: Program>(rt: &HostRuntime, program: &P) -> Result<(), Ended> {
    let mut args = env::args(rt)?;
    let _name = args.next();
    match (args.next(), args.next()) {
        (None, _) => play_input(rt, program),
        (Some(arg), None) => match arg.as_str() {
            "--help" => show_help(rt, P::HELP),
            path if path.starts_with('-') => refuse_arguments(rt),
            path => play_file(rt, program, path),
        },
        _ => refuse_arguments(rt),
    }
}

// Does what the arguments ask for; the status is 1 unless all went well and every line could be read.
pub fn run<P: Program>(rt: &HostRuntime, program: &P) -> ExitCode {
    match obey(rt, program) {
        Ok(()) => ExitCode::SUCCESS,
        Err(_) => ExitCode::FAILURE,
    }
}
