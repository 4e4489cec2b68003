// Why a method finds a request unproven, in words.
use aka::AkaFault;
use attributes::{AttributeFault, RequestFault};
use method::ScriptedFault;
use nas::MethodFault;

pub(crate) trait Told: MethodFault {
    fn text(&self) -> &'static str;
}

impl Told for AkaFault {
    fn text(&self) -> &'static str {
        match self {
            AkaFault::InRequest(RequestFault::WrongSubtype) =>
                "neither a challenge nor an identity request",
            AkaFault::InRequest(RequestFault::InAttribute(AttributeFault::Cut { .. })) =>
                "an attribute is cut or has the length zero",
            AkaFault::InRequest(RequestFault::InAttribute(AttributeFault::Foreign { .. })) =>
                "an attribute is none of the subtype",
            AkaFault::InRequest(_) => "an attribute is missing, surplus or of a wrong length",
            AkaFault::IdentityRefused { .. } => "the identity asked for is not told",
            AkaFault::WrongKdf { .. } => "the first AT_KDF is not 1",
            AkaFault::WrongNetwork { .. } => "the network name is not the SNN",
            AkaFault::NoCard => "no card is in",
            AkaFault::NotSeparated { .. } => "the separation bit is not set",
            AkaFault::WrongAutn { .. } => "the card does not accept the MAC of AUTN",
            AkaFault::StaleSequence { .. } => "the card does not accept the sequence number",
            AkaFault::WrongMac { .. } => "AT_MAC is wrong",
        }
    }
}

impl Told for ScriptedFault {
    fn text(&self) -> &'static str {
        match self {
            ScriptedFault::NoRow => "no row says go on or granted",
            ScriptedFault::OutsideStore => "the key block is not wholly inside the store",
        }
    }
}
