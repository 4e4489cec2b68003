// The words of a line.
ghost use Rattle.std.specs.Prelude.{length};
ghost use Rattle.std.specs.Iterator.{at_most};

use std::alloc::Global;

fn is_blank(b: &u8) -> bool {
    matches!(b, b' ' | b'\t' | b'\r')
}

// What is left of a line, whose words end with it or where a comment starts, and the heap for what they write.
#[derive(Clone, Copy)]
pub(crate) struct Words<'a> {
    pub(crate) heap: Global,
    pub(crate) rest: &'a [u8],
}

impl<'a> Iterator for Words<'a> {
    type Item = &'a [u8];

    ghost remaining = { λ words. at_most (length words.rest.now) };

    fn next(&mut self) -> Option<&'a [u8]> {
        let start = self.rest.iter().position(|b| !is_blank(b))?;
        let (_, from) = self.rest.split_at(start);
        let end = from.iter().position(is_blank).unwrap_or(from.len());
        let (word, rest) = from.split_at(end);
        match word {
            [] | [b'#', ..] => None,
            _ => {
                self.rest = rest;
                Some(word)
            }
        }
    }
}
