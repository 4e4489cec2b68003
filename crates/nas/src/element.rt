// The information elements of a message: each borrows its value from the message and knows the place of its tag.
ghost use Rattle.std.specs.Prelude.{◌≡◌, ◌≤◌};
ghost use Rattle.nas.specs.Elements.{Elem, at_tag, element, element_at, end_at, end_of, goes_on, tagged, value_of};
ghost use Rattle.nas.specs.Parts.{field};

use crate::fault::ElementFault;
use crate::part::{Part, lv, lv_e};
use crate::reader::Readable;

// Each case is a format of TS 24.007; `at` is the place of the tag, the information element identifier.
#[derive(Clone, Copy, Debug, PartialEq, Eq)]
pub enum Element<'a> {
    // T, or TV with the value in half of the byte: the tag is the whole element.
    OneOctet { tag: u8, at: usize },
    // TV: the only element with a fixed length.
    Rand { at: usize, value: &'a [u8] },
    // TLV: one length byte.
    Tlv { tag: u8, at: usize, value: &'a [u8] },
    // TLV-E: two length bytes.
    TlvE { tag: u8, at: usize, value: &'a [u8] },
}

const RAND: u8 = 0x21;

const RAND_LEN: usize = 16;

// The first tag with two length bytes.
const TLV_E: u8 = 0x70;

// The first tag that is a whole element.
const ONE_OCTET: u8 = 0x80;

impl<'a> Readable<'a> for Element<'a> {
    type Fault = ElementFault;

    // A tag.
    type Kind = u8;

    ghost Meaning = { Elem };

    ghost meaning = { element };

    ghost part_at = { element_at };

    ghost end_at = { end_at };

    ghost goes_on = { λ m p _ _. goes_on m p };

    ghost is_of = { tagged };

    fn read_at(msg: &'a [u8], at: u16) -> Result<(Element<'a>, usize), ElementFault> {
        let at = usize::from(at);
        let cut = ElementFault::Cut { at };
        let Some([tag, rest @ ..]) = msg.get(at..) else {
            return Err(cut);
        };
        let tag = *tag;
        match tag {
            ONE_OCTET.. => Ok((Element::OneOctet { tag, at }, at + 1)),
            RAND => {
                let value = rest.get(..RAND_LEN).ok_or(cut)?;
                Ok((Element::Rand { at, value }, at + 1 + RAND_LEN))
            }
            TLV_E.. => {
                let value = lv_e(rest).ok_or(cut)?;
                Ok((Element::TlvE { tag, at, value }, at + 3 + value.len()))
            }
            _ => {
                let value = lv(rest).ok_or(cut)?;
                Ok((Element::Tlv { tag, at, value }, at + 2 + value.len()))
            }
        }
    }

    fn is_of(&self, tag: u8) -> bool {
        self.tag() == tag
    }
}

impl<'a> Element<'a> {
    fn tag(&self) -> u8
        ensures { result ≡ (element self.now).tag }
    {
        match self {
            Element::Rand { .. } => RAND,
            Element::OneOctet { tag, .. } | Element::Tlv { tag, .. } | Element::TlvE { tag, .. } =>
                *tag,
        }
    }

    // The place of the tag.
    fn place(&self) -> usize
        ensures { result ≡ (element self.now).place }
    {
        match self {
            Element::OneOctet { at, .. }
            | Element::Rand { at, .. }
            | Element::Tlv { at, .. }
            | Element::TlvE { at, .. } => *at,
        }
    }

    // How many bytes stand before the value.
    fn header(&self) -> usize
        ensures { result ≡ (element self.now).header }
    {
        match self {
            Element::OneOctet { .. } | Element::Rand { .. } => 1,
            Element::Tlv { .. } => 2,
            Element::TlvE { .. } => 3,
        }
    }

    fn bytes(&self) -> &'a [u8]
        ensures { result.now ≡ (element self.now).value }
    {
        match self {
            Element::OneOctet { .. } => &[],
            Element::Rand { value, .. }
            | Element::Tlv { value, .. }
            | Element::TlvE { value, .. } => value,
        }
    }

    // The value, with the place of its first byte.
    pub(crate) fn value(&self) -> Part<'a>
        requires { end_of (element self.now) ≤ 65535 }
        ensures { field result ≡ value_of (element self.now) }
    {
        Part::at(self.place() + self.header(), self.bytes())
    }

    // The value, with the place of the tag.
    pub(crate) fn at_tag(&self) -> Part<'a>
        requires { end_of (element self.now) ≤ 65535 }
        ensures { field result ≡ at_tag (element self.now) }
    {
        Part::at(self.place(), self.bytes())
    }
}
