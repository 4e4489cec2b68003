// What can be wrong with a message: the fault of each layer stands inside the fault of the layer above.
ghost use Rattle.std.specs.Prelude.{◌≡◌, ℕ};
ghost use Rattle.nas.specs.declared.fault.MessageFault.TheVariants.{InElement, InPacket, WrongType};
ghost use Rattle.nas.specs.Faults.{layer_of, number_of, place_of};

use crate::message::UnknownType;

// What a method finds wrong with a packet: a number, and a place inside the packet. The device reports the number as it is, so
// each fault tells its own.
pub trait MethodFault {
    ghost number: { Self → ℕ };

    ghost place: { Self → ℕ };

    fn number(&self) -> u8
        ensures { result ≡ number self.now };

    fn place(&self) -> u16
        ensures { result ≡ place self.now };
}

// The fault of a reader that has no method: nothing makes one.
#[derive(Clone, Copy, Debug, PartialEq, Eq)]
pub struct NoMethod(());

impl MethodFault for NoMethod {
    ghost number = { λ _. 0 };

    ghost place = { λ _. 0 };

    fn number(&self) -> u8 {
        0
    }

    fn place(&self) -> u16 {
        0
    }
}

#[derive(Clone, Copy, Debug, PartialEq, Eq)]
pub enum ElementFault {
    // It passes the message's end; its first byte stands here.
    Cut { at: usize },
}

// The place is that of the packet's first byte.
#[derive(Clone, Copy, Debug, PartialEq, Eq)]
pub enum PacketFault<F> {
    WrongLength { at: u16 },
    WrongCode { at: u16 },
    InMethod { at: u16, fault: F },
}

#[derive(Clone, Copy, Debug, PartialEq, Eq)]
pub enum MessageFault<F> {
    // Not 3 to 2,048 bytes that start 7E 00.
    WrongHeader,
    WrongType,
    InElement(ElementFault),
    NoEapMessage { at: u16 },
    InPacket(PacketFault<F>),
    // The ngKSI says that there is no key set.
    NoKeySet,
    // The ABBA is missing or too short.
    WrongAbba { at: u16 },
}

impl<F> From<UnknownType> for MessageFault<F> {
    ghost from_gives = { λ _ r. r ≡ WrongType };

    fn from(_: UnknownType) -> MessageFault<F> {
        MessageFault::WrongType
    }
}

impl<F> From<ElementFault> for MessageFault<F> {
    ghost from_gives = { λ f r. r ≡ InElement f };

    fn from(f: ElementFault) -> MessageFault<F> {
        MessageFault::InElement(f)
    }
}

impl<F> From<PacketFault<F>> for MessageFault<F> {
    ghost from_gives = { λ f r. r ≡ InPacket f };

    fn from(f: PacketFault<F>) -> MessageFault<F> {
        MessageFault::InPacket(f)
    }
}

impl<F: MethodFault> MessageFault<F> {
    pub fn number(&self) -> u8
        ensures { result ≡ number_of F.MethodFault.number self.now }
    {
        match self {
            MessageFault::WrongHeader => 6,
            MessageFault::WrongType => 7,
            MessageFault::InElement(ElementFault::Cut { .. }) => 8,
            MessageFault::NoEapMessage { .. } => 9,
            MessageFault::InPacket(PacketFault::WrongLength { .. }) => 10,
            MessageFault::InPacket(PacketFault::WrongCode { .. }) => 11,
            MessageFault::InPacket(PacketFault::InMethod { fault, .. }) => fault.number(),
            MessageFault::NoKeySet | MessageFault::WrongAbba { .. } => 12,
        }
    }

    // The layer that refuses: 2 the message, 3 the EAP packet, 4 the method. Stays a number: programs print it as it is.
    pub fn layer(&self) -> u8
        ensures { result ≡ layer_of self.now }
    {
        match self {
            MessageFault::InPacket(PacketFault::InMethod { .. }) => 4,
            MessageFault::InPacket(_) => 3,
            _ => 2,
        }
    }

    // The place in the message; a method's place counts from the packet's first byte.
    pub fn place(&self) -> usize
        ensures { result ≡ place_of F.MethodFault.place self.now }
    {
        match self {
            MessageFault::WrongHeader => 0,
            MessageFault::WrongType => 2,
            MessageFault::InElement(ElementFault::Cut { at }) => *at,
            MessageFault::NoEapMessage { at }
            | MessageFault::InPacket(
                PacketFault::WrongLength { at } | PacketFault::WrongCode { at },
            )
            | MessageFault::WrongAbba { at } => usize::from(*at),
            MessageFault::InPacket(PacketFault::InMethod { at, fault }) => {
                usize::from(*at) + usize::from(fault.place())
            }
            MessageFault::NoKeySet => 3,
        }
    }
}
