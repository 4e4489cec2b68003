// The fields and the plain word of a line, and the values that they write.
ghost use Rattle.std.specs.Prelude.{◌≤◌, IfOk};

use crate::hex::decode;
use crate::names::{Chosen, CommandName, Named, ValueName};
use crate::refusal::{Quoted, Refusal, ValueFault};
use crate::words::Words;
use keys::Octets;
use std::alloc::Global;

// What a command takes: fields by name, and a plain word, if it takes one, by the name that answers call it.
#[derive(Clone, Copy)]
pub(crate) struct Form {
    pub(crate) command: CommandName,
    pub(crate) fields: &'static [ValueName],
    pub(crate) plain: Option<ValueName>,
}

// What the words of a line write: the values of fields, and the plain word under the name that answers call it. A place for each
// name, and no map on the heap: a line that needs no memory cannot run out of it.
#[derive(Drop)]
pub(crate) struct Values<'a> {
    heap: Global,
    written: [Option<&'a [u8]>; 20],
}

// The name and the value of a field; a plain word has none.
fn name_and_value<'a>(word: &'a [u8]) -> Option<(&'a [u8], &'a [u8])> {
    match word.iter().position(|b| *b == b'=') {
        None | Some(0) => None,
        Some(at) => Some((&word[..at], &word[at + 1..])),
    }
}

// The number that the digits write; one that is too large for the type is the largest of the type.
fn number_of(digits: &[u8]) -> Option<u64> {
    if digits.is_empty() {
        return None;
    }
    digits.iter().try_fold(0u64, |number, b| {
        let digit = char::from(*b).to_digit(10)?;
        Some(number.saturating_mul(10).saturating_add(u64::from(digit)))
    })
}

// These bytes, which are the value of this name, if they are no more than N.
pub(crate) fn bounded<const N: usize>(name: ValueName, bytes: &[u8]) -> Result<Octets<N>, Refusal> {
    Octets::<N>::new(bytes).ok_or(too_long(name, bytes.len(), N))
}

pub(crate) fn too_long(name: ValueName, bytes: usize, most: usize) -> Refusal {
    ValueFault::TooLong { bytes, most }.of(name)
}

impl Form {
    // The name of the field as the form has it.
    fn field(&self, name: &[u8]) -> Option<ValueName> {
        ValueName::among(self.fields, name)
    }
}

impl<'a> Values<'a> {
    pub(crate) fn nothing(heap: Global) -> Values<'a> {
        Values {
            heap,
            written: [None; 20],
        }
    }

    // The values of the words, each at most once and each one that the command takes.
    pub(crate) fn read(form: &Form, words: Words<'a>) -> Result<Values<'a>, Refusal> {
        let mut values = Values::nothing(words.heap);
        values.take_all(form, words)?;
        Ok(values)
    }

    pub(crate) fn take_all(&mut self, form: &Form, words: Words<'a>) -> Result<(), Refusal> {
        for word in words {
            self.take(form, word)?;
        }
        Ok(())
    }

    // Takes a word, if it gives a value that the command takes and that was not given before.
    fn take(&mut self, form: &Form, word: &'a [u8]) -> Result<(), Refusal> {
        match name_and_value(word) {
            Some((name, value)) => {
                let Some(known) = form.field(name) else {
                    return Err(Refusal::UnknownField {
                        command: form.command,
                        name: Quoted::of(name),
                    });
                };
                match self.put(known, value) {
                    None => Ok(()),
                    Some(_) => Err(ValueFault::Twice.of(known)),
                }
            }
            None => {
                let Some(known) = form.plain else {
                    return Err(Refusal::UnexpectedWord(Quoted::of(word)));
                };
                match self.put(known, word) {
                    None => Ok(()),
                    Some(_) => Err(Refusal::UnexpectedWord(Quoted::of(word))),
                }
            }
        }
    }

    // Keeps the value of this name, and gives the one that it had before.
    fn put(&mut self, name: ValueName, value: &'a [u8]) -> Option<&'a [u8]> {
        self.written[name as usize].replace(value)
    }

    // Whether none of these is written with more than so many characters; what is missing is none.
    pub(crate) fn are_within(&self, most: usize, names: &[ValueName]) -> bool {
        names
            .iter()
            .filter_map(|name| self.written[*name as usize])
            .all(|value| value.len() <= most)
    }

    pub(crate) fn text(&self, name: ValueName) -> Result<&'a [u8], Refusal> {
        self.written[name as usize].ok_or(ValueFault::Missing.of(name))
    }

    pub(crate) fn bytes(&self, name: ValueName) -> Result<Vec<u8>, Refusal> {
        decode(self.heap, name, self.text(name)?)
    }

    // The bytes of a plain word, which is a dash for none.
    pub(crate) fn plain_bytes(&self, name: ValueName) -> Result<Vec<u8>, Refusal> {
        match self.text(name)? {
            b"-" => Ok(Vec::new(self.heap)),
            word => decode(self.heap, name, word),
        }
    }

    // The bytes of a field that has just N of them.
    pub(crate) fn array<const N: usize>(&self, name: ValueName) -> Result<[u8; N], Refusal> {
        let bytes = self.bytes(name)?;
        <[u8; N]>::try_from(bytes.as_slice()).map_err(|_| {
            ValueFault::WrongLength {
                bytes: bytes.len(),
                wanted: N,
            }
            .of(name)
        })
    }

    // A field's number, from 0 to the most.
    pub(crate) fn number(&self, name: ValueName, most: u64) -> Result<u64, Refusal>
        ensures { IfOk result (λ n. n ≤ most) }
    {
        number_of(self.text(name)?)
            .filter(|number| *number <= most)
            .ok_or(ValueFault::NoNumber { most }.of(name))
    }

    // Which of the words a value is.
    pub(crate) fn choice<C: Chosen>(&self, name: ValueName) -> Result<C, Refusal> {
        C::of(self.text(name)?).ok_or(ValueFault::NotOneOf(C::CHOICES).of(name))
    }

    // Refuses the first of these fields that is there: none goes with the word that was chosen.
    pub(crate) fn without<C: Chosen>(&self, names: &[ValueName], chosen: C) -> Result<(), Refusal> {
        match names
            .iter()
            .find(|name| self.written[**name as usize].is_some())
        {
            Some(name) => Err(ValueFault::NotWith(chosen.choice()).of(*name)),
            None => Ok(()),
        }
    }
}
