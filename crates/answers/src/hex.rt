// Bytes in hexadecimal digits, two to a byte.
use std::fmt;
use std::fmt::Display;

const DIGITS: &[u8; 16] = b"0123456789abcdef";

#[derive(Clone, Copy)]
pub(crate) struct Hex<'a>(pub(crate) &'a [u8]);

impl Display for Hex<'_> {
    fn fmt<W: fmt::Write>(&self, f: &mut fmt::Formatter<W>) -> fmt::Result {
        for b in self.0 {
            // Two characters: `{b:02x}` goes through the formatter's padding for each byte.
            f.write_char(char::from(DIGITS[usize::from(*b / 16)]))?;
            f.write_char(char::from(DIGITS[usize::from(*b % 16)]))?;
        }
        Ok(())
    }
}
