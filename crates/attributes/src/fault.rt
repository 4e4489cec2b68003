// What can be wrong with a request of EAP-AKA': the fault of an attribute stands inside the fault of the request.
ghost use Rattle.std.specs.Prelude.{◌≡◌};
ghost use Rattle.attributes.specs.declared.fault.RequestFault.TheVariants.{InAttribute, WrongSubtype};
ghost use Rattle.attributes.specs.Faults.{attribute_place, number_of, place_of};

use crate::attribute::UnknownSubtype;

// The place is that of the attribute's first byte in the packet.
#[derive(Clone, Copy, Debug, PartialEq, Eq)]
pub enum AttributeFault {
    // It has no length, a length of zero, or passes the packet's end.
    Cut { at: u16 },
    // It is not one of the request's subtype.
    Foreign { at: u16 },
    WrongLength { at: u16 },
    // One more than there may be.
    Surplus { at: u16 },
}

#[derive(Clone, Copy, Debug, PartialEq, Eq)]
pub enum RequestFault {
    // Not 8 to 65,535 bytes with a subtype that the device answers.
    WrongSubtype,
    InAttribute(AttributeFault),
    // An attribute that the subtype needs is not there.
    Missing,
}

impl From<UnknownSubtype> for RequestFault {
    ghost from_gives = { λ _ r. r ≡ WrongSubtype };

    fn from(_: UnknownSubtype) -> RequestFault {
        RequestFault::WrongSubtype
    }
}

impl From<AttributeFault> for RequestFault {
    ghost from_gives = { λ f r. r ≡ InAttribute f };

    fn from(f: AttributeFault) -> RequestFault {
        RequestFault::InAttribute(f)
    }
}

impl AttributeFault {
    fn place(&self) -> u16
        ensures { result ≡ attribute_place self.now }
    {
        match self {
            AttributeFault::Cut { at }
            | AttributeFault::Foreign { at }
            | AttributeFault::WrongLength { at }
            | AttributeFault::Surplus { at } => *at,
        }
    }
}

impl RequestFault {
    pub fn number(&self) -> u8
        ensures { result ≡ number_of self.now }
    {
        match self {
            RequestFault::WrongSubtype => 21,
            RequestFault::InAttribute(AttributeFault::Cut { .. }) => 22,
            RequestFault::InAttribute(AttributeFault::Foreign { .. }) => 23,
            RequestFault::InAttribute(
                AttributeFault::WrongLength { .. } | AttributeFault::Surplus { .. },
            )
            | RequestFault::Missing => 24,
        }
    }

    // The place in the packet.
    pub fn place(&self) -> u16
        ensures { result ≡ place_of self.now }
    {
        match self {
            RequestFault::WrongSubtype | RequestFault::Missing => 0,
            RequestFault::InAttribute(fault) => fault.place(),
        }
    }
}
