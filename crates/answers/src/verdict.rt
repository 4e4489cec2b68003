// What a method found of a packet, in words.
use crate::hex::Hex;
use crate::in_words::InWords;
use method::Verdict;
use std::fmt;
use std::fmt::Display;

// Why a request is unproven: the number, the place in the packet, and what that means.
#[derive(Clone, Copy)]
pub struct Reason {
    pub number: u8,
    pub place: u16,
    pub text: &'static str,
}

impl Display for Reason {
    fn fmt<W: fmt::Write>(&self, f: &mut fmt::Formatter<W>) -> fmt::Result {
        let Reason {
            number,
            place,
            text,
        } = self;
        write!(
            f,
            "number {number}, layer 4 (EAP method), place {place}: {text}"
        )
    }
}

// The reply stays in the buffer that the method wrote it to: an answer needs no memory, which may have run out when the method
// has taken the packet.
#[derive(Clone, Copy)]
pub struct Processed<'a> {
    pub verdict: Verdict<Reason>,
    pub reply: &'a [u8],
    pub holds_block: bool,
}

impl Display for InWords<Verdict<Reason>> {
    fn fmt<W: fmt::Write>(&self, f: &mut fmt::Formatter<W>) -> fmt::Result {
        match self.0 {
            Verdict::GoOn => f.write_str("verdict 1 (go on)"),
            Verdict::Granted => f.write_str("verdict 2 (granted)"),
            Verdict::Unproven(reason) => write!(f, "verdict 3 (unproven): {reason}"),
        }
    }
}

impl Display for Processed<'_> {
    fn fmt<W: fmt::Write>(&self, f: &mut fmt::Formatter<W>) -> fmt::Result {
        let verdict = InWords(self.verdict);
        let reply = Hex(self.reply);
        let held = if self.holds_block {
            "block"
        } else {
            "no block"
        };
        write!(f, "{verdict}\n  reply = {reply}\n  {held} held")
    }
}
