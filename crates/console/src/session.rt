// A script while it is played: its lines, and where the answers go.
ghost use Rattle.std.specs.Prelude.{◌≡◌, Bool, true, false, IfOk, IfSome};

use answers::Answer;
use script::{Grammar, Refusal};
use std::alloc::Global;
use std::io;
use std::io::{BufRead, BufWriter, Write};
use std::marker::Model;

#[derive(Drop)]
pub struct Session<R: BufRead, W: Write + Drop> {
    heap: Global,
    input: R,
    out: BufWriter<W>,
    // The line that was read last, and its number, from 1.
    line: Vec<u8>,
    number: u64,
    // Whether every line so far could be read.
    all_read: bool,
}

// In a contract a session is whether every line so far could be read.
impl<R: BufRead, W: Write + Drop> Model for Session<R, W> {
    ghost Value = { Bool };

    ghost view = { λ s. s.all_read };
}

fn line_of<'a>(bytes: &'a [u8]) -> &'a [u8] {
    match bytes {
        [line @ .., b'\n'] => line,
        _ => bytes,
    }
}

impl<R: BufRead, W: Write + Drop> Session<R, W> {
    pub fn new(heap: Global, input: R, out: BufWriter<W>) -> Session<R, W>
        ensures { result ≡ true }
    {
        Session {
            heap,
            input,
            out,
            line: Vec::new(heap),
            number: 0,
            all_read: true,
        }
    }

    // The heap that the answers and the rows of a script are on.
    pub fn heap(&self) -> Global {
        self.heap
    }

    pub fn say(&mut self, answer: &Answer<'_>) -> io::Result<()>
        ensures { self.new ≡ self.old }
    {
        writeln!(self.out, "{answer}")
    }

    // Reads the next line, if there is one.
    fn advance(&mut self) -> io::Result<bool>
        ensures { self.new ≡ self.old }
    {
        self.line.clear();
        self.number = self.number.saturating_add(1);
        Ok(self.input.read_until(b'\n', &mut self.line)? > 0)
    }

    // Answers a line that could not be read.
    fn refuse(&mut self, refusal: &Refusal) -> io::Result<()>
        ensures { self.new ≡ false }
    {
        let number = self.number;
        self.all_read = false;
        writeln!(self.out, "line {number}: {refusal}")
    }

    // What the next line asks for that can be read and asks for something; there is none at the end of the script. The lines before
    // it that cannot be read are answered here.
    pub fn next<G: Grammar>(&mut self, grammar: &G) -> io::Result<Option<G::Asked>>
        ensures asked { IfOk result (λ o. IfSome o (λ asked. G.takes grammar.now asked ≡ true)) }
        ensures kept { self.old ≡ false → self.new ≡ false }
    {
        // A script has no bound that a proof could know, and every function has to return.
        for _ in 0..u64::MAX {
            if !self.advance()? {
                break;
            }
            match grammar.read(self.heap, line_of(self.line.as_slice())) {
                Ok(Some(asked)) => return Ok(Some(asked)),
                Ok(None) => {}
                Err(refusal) => self.refuse(&refusal)?,
            }
        }
        Ok(None)
    }

    // Ends the script, and tells whether every line could be read.
    pub fn finish(&mut self) -> io::Result<bool>
        ensures { IfOk result (λ all_read. all_read ≡ self.old) }
    {
        self.out.flush()?;
        Ok(self.all_read)
    }
}
