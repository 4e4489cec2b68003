// Hexadecimal digits, two to a byte.
ghost use Rattle.std.specs.Prelude.{◌≡◌, ◌<◌, IfSome};
ghost use Rattle.script.specs.Hex.{digit_of};

use crate::names::ValueName;
use crate::refusal::{Refusal, ValueFault};
use std::alloc::Global;

fn digit(b: u8) -> Option<u8>
    ensures value { result ≡ digit_of b }
    ensures small { IfSome result (λ d. d < 16) }
{
    match b {
        b'0'..=b'9' => Some(b - b'0'),
        b'a'..=b'f' => Some(b - b'a' + 10),
        b'A'..=b'F' => Some(b - b'A' + 10),
        _ => None,
    }
}

// The bytes that the digits write, or the first thing that is wrong with the value of this name. Digit by
// digit, each read once: a byte that is no digit is told before an odd number of digits.
pub(crate) fn decode(heap: Global, name: ValueName, digits: &[u8]) -> Result<Vec<u8>, Refusal> {
    let mut bytes = Vec::with_capacity(heap, digits.len() / 2)?;
    let mut high = None;
    for (i, b) in digits.iter().enumerate() {
        let Some(value) = digit(*b) else {
            return Err(ValueFault::NoDigit { place: i + 1 }.of(name));
        };
        match high.take() {
            None => high = Some(16 * value),
            Some(first) => bytes.push(first | value)?,
        }
    }
    match high {
        None => Ok(bytes),
        Some(_) => Err(ValueFault::OddDigits.of(name)),
    }
}
