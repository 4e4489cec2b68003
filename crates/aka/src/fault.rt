// Why EAP-AKA' finds a request unproven: the fault of a request that cannot be read stands inside.
ghost use Rattle.std.specs.Prelude.{◌≡◌};
ghost use Rattle.aka.specs.declared.fault.AkaFault.TheVariants.{InRequest};
ghost use Rattle.aka.specs.Faults.{number_of, place_of};

use attributes::RequestFault;
use nas::MethodFault;

// The place is that of an attribute in the packet.
#[derive(Clone, Copy, Debug, PartialEq, Eq)]
pub enum AkaFault {
    InRequest(RequestFault),
    // A block is held, or the permanent identity is asked for.
    IdentityRefused { at: u16 },
    // The first key derivation function is not the one of EAP-AKA'.
    WrongKdf { at: u16 },
    // The network's name is not that of the subscription.
    WrongNetwork { at: u16 },
    NoCard,
    // The AMF separation bit of AUTN is not set.
    NotSeparated { at: u16 },
    // The card does not accept the MAC of AUTN.
    WrongAutn { at: u16 },
    // The card has seen the sequence number of AUTN, or a higher one.
    StaleSequence { at: u16 },
    WrongMac { at: u16 },
}

impl From<RequestFault> for AkaFault {
    ghost from_gives = { λ f r. r ≡ InRequest f };

    fn from(f: RequestFault) -> AkaFault {
        AkaFault::InRequest(f)
    }
}

impl MethodFault for AkaFault {
    ghost number = { number_of };

    ghost place = { place_of };

    fn number(&self) -> u8 {
        match self {
            AkaFault::InRequest(fault) => fault.number(),
            AkaFault::IdentityRefused { .. } => 25,
            AkaFault::WrongKdf { .. } => 26,
            AkaFault::WrongNetwork { .. } => 27,
            AkaFault::NoCard => 28,
            AkaFault::NotSeparated { .. } => 29,
            AkaFault::WrongAutn { .. } => 30,
            AkaFault::StaleSequence { .. } => 31,
            AkaFault::WrongMac { .. } => 32,
        }
    }

    fn place(&self) -> u16 {
        match self {
            AkaFault::InRequest(fault) => fault.place(),
            AkaFault::NoCard => 0,
            AkaFault::IdentityRefused { at }
            | AkaFault::WrongKdf { at }
            | AkaFault::WrongNetwork { at }
            | AkaFault::NotSeparated { at }
            | AkaFault::WrongAutn { at }
            | AkaFault::StaleSequence { at }
            | AkaFault::WrongMac { at } => *at,
        }
    }
}
