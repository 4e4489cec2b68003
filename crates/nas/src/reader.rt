// The reader of parts that lie one after another, as the elements of a message do and the attributes of a packet.
ghost use Rattle.std.specs.Prelude.{◌≡◌, ℕ, ◌-◌, ◌<◌, ◌≤◌, Bool, List, MatchOption, Ok, Result, length};
ghost use Rattle.std.specs.Option.{option_map};
ghost use Rattle.nas.specs.Outcomes.{IfFound, IfRead, seen};
ghost use Rattle.nas.specs.Walk.{first, part_step, parts_from, read_first};

use std::marker::PhantomData;

// A part that can be read where it stands.
pub trait Readable<'a>: Copy {
    type Fault: Copy;

    // What is searched for among the parts. Stays a type: a closure would ask its caller that it may always be called.
    type Kind: Copy;

    // A part as the definitions speak of it.
    ghost Meaning: { Type 0 };

    ghost meaning: { Self → Meaning };

    // The part that stands at a place, or its fault.
    ghost part_at: { List ℕ → ℕ → Result Meaning Self.Fault };

    // The place after the part that stands at a place.
    ghost end_at: { List ℕ → ℕ → ℕ };

    // No part is empty. It stands before the functions, and so is no law: a proof cannot name a law of a trait with a lifetime.
    ghost goes_on: { (m : List ℕ) (p : ℕ) (x : Meaning) → part_at m p ≡ Ok x → p < end_at m p };

    ghost is_of: { Self.Kind → Meaning → Bool };

    // The part at a place, with the place after it.
    fn read_at(bytes: &'a [u8], at: u16) -> Result<(Self, usize), Self::Fault>
        ensures part { seen (λ r. meaning r.0) result ≡ part_at bytes.now at }
        ensures end { IfRead (λ r. r.1 ≡ end_at bytes.now at) result };

    fn is_of(&self, kind: Self::Kind) -> bool
        ensures { result ≡ is_of kind (meaning self.now) };
}

// Goes from part to part, from a place on to the end of the bytes, which are so few that two bytes tell each place.
#[derive(Drop)]
pub struct Reader<'a, T> {
    pub(crate) bytes: &'a [u8],
    pub(crate) at: usize,
    parts: PhantomData<T>,
    ghost short: { length bytes.now ≤ 65535 },
}

impl<'a, T: Readable<'a>> Reader<'a, T> {
    // The parts of these bytes from a place on.
    pub(crate) fn of(bytes: &'a [u8], at: usize) -> Reader<'a, T>
        requires { length bytes.now ≤ 65535 }
        ensures bytes { result.bytes.now ≡ bytes.now }
        ensures place { result.at ≡ at }
    {
        Reader {
            bytes,
            at,
            parts: PhantomData,
        }
    }

    // The same, if the bytes are no more than 65,535.
    pub fn new(bytes: &'a [u8], at: usize) -> Option<Reader<'a, T>>
        ensures { MatchOption result (65535 < length bytes.now) (λ r. (length bytes.now ≤ 65535) × (r.bytes.now ≡ bytes.now) × (r.at ≡ at)) }
    {
        if bytes.len() > usize::from(u16::MAX) {
            return None;
        }
        Some(Reader::of(bytes, at))
    }

    // How many bytes there are.
    pub(crate) fn len(&self) -> u16
        ensures { result ≡ length self.now.bytes.now }
    {
        self.bytes.len() as u16
    }

    // The next part, or its fault: the reader then stays where it is.
    #[tactic(auto, using(crate::proofs::Walks::none_at_end, crate::proofs::Walks::part_first, crate::proofs::Walks::fault_first))]
    pub fn next(&mut self) -> Result<Option<T>, T::Fault>
        ensures found { seen (option_map T.meaning) result ≡ (part_step T.part_at T.end_at self.old.bytes.now self.old.at).found }
        ensures moved { self.new.at ≡ (part_step T.part_at T.end_at self.old.bytes.now self.old.at).next }
        ensures kept { self.new.bytes.now ≡ self.old.bytes.now }
        ensures read { parts_from T.part_at T.end_at self.old.bytes.now self.old.at ≡ read_first (seen (option_map T.meaning) result) (parts_from T.part_at T.end_at self.new.bytes.now self.new.at) }
        ensures less { IfFound (λ _. length self.new.bytes.now - self.new.at < length self.old.bytes.now - self.old.at) result }
    {
        if self.at >= self.bytes.len() {
            return Ok(None);
        }
        let (part, end) = T::read_at(self.bytes, self.at as u16)?;
        self.at = end;
        Ok(Some(part))
    }

    // The first part of this kind among those still to come, if all of them are without fault.
    pub fn find(&self, kind: T::Kind) -> Result<Option<T>, T::Fault>
        ensures { seen (option_map T.meaning) result ≡ first (T.is_of kind) (parts_from T.part_at T.end_at self.now.bytes.now self.now.at) }
    {
        let mut rest: Reader<'a, T> = Reader::of(self.bytes, self.at);
        let mut found = None;
        while let Some(part) = rest.next()? {
            if found.is_none() && part.is_of(kind) {
                found = Some(part);
            }
        }
        Ok(found)
    }
}
