// The attributes of a request (RFC 4187, RFC 5448): each borrows its value from the packet and knows its place.
ghost use Rattle.std.specs.Prelude.{◌≡◌};
ghost use Rattle.std.specs.Result.{result_ok};
ghost use Rattle.nas.specs.Parts.{field};
ghost use Rattle.attributes.specs.Attributes.{Attr, attribute, attribute_at, attribute_of, end_at, field_of, foreign, goes_on};
ghost use Rattle.attributes.specs.Requests.{subtype_of};

use crate::fault::AttributeFault;
use nas::{Part, Readable};

// What a request is about: the subtypes that the device answers.
#[derive(Clone, Copy, Debug, PartialEq, Eq)]
pub enum Subtype {
    Challenge,
    Identity,
}

// A byte that stands for none of the subtypes.
#[derive(Clone, Copy, Debug, PartialEq, Eq)]
pub struct UnknownSubtype(());

// Which identity is asked for.
#[derive(Clone, Copy, Debug, PartialEq, Eq)]
pub enum IdentityKind {
    Permanent,
    Any,
    FullAuthentication,
}

// The part is the value, behind type and length, with the place of the attribute's first byte.
#[derive(Clone, Copy, Debug, PartialEq, Eq)]
pub enum Attribute<'a> {
    Rand(Part<'a>),
    Autn(Part<'a>),
    Mac(Part<'a>),
    // The network's name.
    KdfInput(Part<'a>),
    // A key derivation function.
    Kdf(Part<'a>),
    IdentityRequest(IdentityKind, Part<'a>),
    // One that may be passed over.
    Skippable(Part<'a>),
    Other(Part<'a>),
}

const RAND: u8 = 1;

const AUTN: u8 = 2;

const PERMANENT_ID_REQ: u8 = 10;

const MAC: u8 = 11;

const ANY_ID_REQ: u8 = 13;

const FULLAUTH_ID_REQ: u8 = 17;

const KDF_INPUT: u8 = 23;

const KDF: u8 = 24;

// The first type that may be passed over.
const SKIPPABLE: u8 = 128;

// Type and length.
const HEADER_LEN: usize = 2;

// The length counts words of four bytes.
const WORD: usize = 4;

impl TryFrom<u8> for Subtype {
    type Error = UnknownSubtype;

    ghost try_from_gives = { λ byte r. result_ok r ≡ subtype_of byte };

    fn try_from(byte: u8) -> Result<Subtype, UnknownSubtype> {
        match byte {
            1 => Ok(Subtype::Challenge),
            5 => Ok(Subtype::Identity),
            _ => Err(UnknownSubtype(())),
        }
    }
}

fn attribute_of<'a>(kind: u8, part: Part<'a>) -> Attribute<'a>
    ensures { attribute result ≡ attribute_of kind (field part.entry) }
{
    match kind {
        RAND => Attribute::Rand(part),
        AUTN => Attribute::Autn(part),
        PERMANENT_ID_REQ => Attribute::IdentityRequest(IdentityKind::Permanent, part),
        MAC => Attribute::Mac(part),
        ANY_ID_REQ => Attribute::IdentityRequest(IdentityKind::Any, part),
        FULLAUTH_ID_REQ => Attribute::IdentityRequest(IdentityKind::FullAuthentication, part),
        KDF_INPUT => Attribute::KdfInput(part),
        KDF => Attribute::Kdf(part),
        SKIPPABLE.. => Attribute::Skippable(part),
        _ => Attribute::Other(part),
    }
}

impl<'a> Readable<'a> for Attribute<'a> {
    type Fault = AttributeFault;

    // The subtype to which the attribute is foreign.
    type Kind = Subtype;

    ghost Meaning = { Attr };

    ghost meaning = { attribute };

    ghost part_at = { attribute_at };

    ghost end_at = { end_at };

    ghost goes_on = { goes_on };

    ghost is_of = { foreign };

    fn read_at(packet: &'a [u8], at: u16) -> Result<(Attribute<'a>, usize), AttributeFault> {
        let cut = AttributeFault::Cut { at };
        let start = usize::from(at);
        let Some([kind, words, rest @ ..]) = packet.get(start..) else {
            return Err(cut);
        };
        let len = (WORD * usize::from(*words))
            .checked_sub(HEADER_LEN)
            .ok_or(cut)?;
        let bytes = rest.get(..len).ok_or(cut)?;
        let part = Part { at, bytes };
        Ok((attribute_of(*kind, part), start + HEADER_LEN + len))
    }

    // Whether it is neither one of this subtype nor one that may be passed over.
    fn is_of(&self, subtype: Subtype) -> bool {
        match (self, subtype) {
            (Attribute::Skippable(_), _) | (Attribute::IdentityRequest(..), Subtype::Identity) =>
                false,
            (Attribute::Other(_), _) | (Attribute::IdentityRequest(..), Subtype::Challenge) => true,
            (_, Subtype::Identity) => true,
            (_, Subtype::Challenge) => false,
        }
    }
}

impl<'a> Attribute<'a> {
    pub(crate) fn part(&self) -> Part<'a>
        ensures { field result ≡ field_of (attribute self.now) }
    {
        match self {
            Attribute::Rand(part)
            | Attribute::Autn(part)
            | Attribute::Mac(part)
            | Attribute::KdfInput(part)
            | Attribute::Kdf(part)
            | Attribute::IdentityRequest(_, part)
            | Attribute::Skippable(part)
            | Attribute::Other(part) => *part,
        }
    }
}
