// A message of the network, in words.
use crate::hex::Hex;
use crate::in_words::InWords;
use nas::{
    Code, Element, Elements, Message, MessageFault, MethodFault, NetworkKind, NoMethod, Packet,
    PacketFault, Part, read,
};
use std::fmt;
use std::fmt::Display;

// What the message says, or why it is refused.
impl Display for InWords<&[u8]> {
    fn fmt<W: fmt::Write>(&self, f: &mut fmt::Formatter<W>) -> fmt::Result {
        match read::<NoMethod>(self.0) {
            Ok(message) => {
                let contents = Contents {
                    bytes: self.0,
                    message,
                };
                contents.fmt(f)
            }
            Err(fault) => InWords(fault).fmt(f),
        }
    }
}

fn heading(message: Message<'_>) -> &'static str {
    match message {
        Message::Request { .. } => "AUTHENTICATION REQUEST",
        Message::Success { .. } => "AUTHENTICATION RESULT (success)",
        Message::Failure { .. } => "AUTHENTICATION RESULT (failure)",
        Message::Reject { .. } => "AUTHENTICATION REJECT",
    }
}

fn packet_of<'a>(message: Message<'a>) -> Option<Packet<'a>> {
    match message {
        Message::Request { packet, .. }
        | Message::Success { packet, .. }
        | Message::Failure { packet } => Some(packet),
        Message::Reject { packet } => packet,
    }
}

// A message that could be read, and its bytes.
#[derive(Clone, Copy)]
struct Contents<'a> {
    bytes: &'a [u8],
    message: Message<'a>,
}

impl Display for Contents<'_> {
    fn fmt<W: fmt::Write>(&self, f: &mut fmt::Formatter<W>) -> fmt::Result {
        let heading = heading(self.message);
        let len = self.bytes.len();
        let keys = KeySet(self.message);
        let elements = ElementLines(self.bytes);
        write!(f, "{heading}, {len} bytes\n{keys}{elements}")?;
        match packet_of(self.message) {
            Some(packet) => write!(f, "  {}", InWords(packet)),
            None => f.write_str("  no EAP message"),
        }
    }
}

// What a request and a success say of the keys.
#[derive(Clone, Copy)]
struct KeySet<'a>(Message<'a>);

impl Display for KeySet<'_> {
    fn fmt<W: fmt::Write>(&self, f: &mut fmt::Formatter<W>) -> fmt::Result {
        match self.0 {
            Message::Request { ngksi, abba, .. } | Message::Success { ngksi, abba, .. } => {
                let Part { at, bytes } = abba;
                let value = Hex(bytes);
                writeln!(f, "  ngKSI {ngksi}\n  ABBA at {at}: {value}")
            }
            Message::Failure { .. } | Message::Reject { .. } => Ok(()),
        }
    }
}

// The elements of the message that these bytes are, a line for each.
#[derive(Clone, Copy)]
struct ElementLines<'a>(&'a [u8]);

impl Display for ElementLines<'_> {
    fn fmt<W: fmt::Write>(&self, f: &mut fmt::Formatter<W>) -> fmt::Result {
        let Ok(mut elements) = Elements::of_message::<NoMethod>(self.0) else {
            return Ok(());
        };
        while let Ok(Some(element)) = elements.next() {
            writeln!(f, "  {}", InWords(element))?;
        }
        Ok(())
    }
}

impl Display for InWords<Element<'_>> {
    fn fmt<W: fmt::Write>(&self, f: &mut fmt::Formatter<W>) -> fmt::Result {
        let (tag, at, header, len) = match self.0 {
            Element::OneOctet { tag, at } => (tag, at, 1, 0),
            Element::Rand { at, value } => (0x21, at, 1, value.len()),
            Element::Tlv { tag, at, value } => (tag, at, 2, value.len()),
            Element::TlvE { tag, at, value } => (tag, at, 3, value.len()),
        };
        let from = at.saturating_add(header);
        write!(f, "element {tag:02x} at {at}: {len} bytes at {from}")
    }
}

impl Display for InWords<Code> {
    fn fmt<W: fmt::Write>(&self, f: &mut fmt::Formatter<W>) -> fmt::Result {
        f.write_str(match self.0 {
            Code::Request => "request",
            Code::Success => "success",
            Code::Failure => "failure",
        })
    }
}

impl Display for InWords<Packet<'_>> {
    fn fmt<W: fmt::Write>(&self, f: &mut fmt::Formatter<W>) -> fmt::Result {
        let Packet {
            code,
            identifier,
            part: Part { at, bytes },
        } = self.0;
        let code = InWords(code);
        let len = bytes.len();
        write!(
            f,
            "EAP {code}, identifier {identifier}, {len} bytes at {at}"
        )?;
        match bytes {
            [_, _, _, _, eap_type, ..] => write!(f, ", type {eap_type}"),
            _ => Ok(()),
        }
    }
}

fn reason(fault: &MessageFault<NoMethod>) -> &'static str {
    match fault {
        MessageFault::WrongHeader => "not a message of 3 to 2048 bytes that starts with 7e 00",
        MessageFault::WrongType => "the type is none of 56, 58 and 5a",
        MessageFault::InElement(_) => "a part or an element is cut",
        MessageFault::NoEapMessage { .. } => "there is no EAP message",
        MessageFault::InPacket(PacketFault::WrongLength { .. }) =>
            "the EAP packet has another length than it says",
        MessageFault::InPacket(PacketFault::WrongCode { .. }) =>
            "the EAP packet's code does not fit",
        MessageFault::InPacket(PacketFault::InMethod { .. }) => "the EAP method refuses it",
        MessageFault::NoKeySet => "the ngKSI names no key set",
        MessageFault::WrongAbba { .. } => "there is no ABBA of at least 2 bytes",
    }
}

fn layer_name(fault: &MessageFault<NoMethod>) -> &'static str {
    match fault {
        MessageFault::InPacket(PacketFault::InMethod { .. }) => "EAP method",
        MessageFault::InPacket(_) => "EAP packet",
        _ => "message",
    }
}

impl Display for InWords<MessageFault<NoMethod>> {
    fn fmt<W: fmt::Write>(&self, f: &mut fmt::Formatter<W>) -> fmt::Result {
        let fault = &self.0;
        let number = fault.number();
        let layer = fault.layer();
        let name = layer_name(fault);
        let place = fault.place();
        let reason = reason(fault);
        write!(
            f,
            "refused: number {number}, layer {layer} ({name}), place {place}: {reason}"
        )
    }
}

// What was found of a text that may be a serving network name.
impl Display for InWords<Option<NetworkKind>> {
    fn fmt<W: fmt::Write>(&self, f: &mut fmt::Formatter<W>) -> fmt::Result {
        f.write_str(match self.0 {
            Some(NetworkKind::Public) => "serving network name of a public network",
            Some(NetworkKind::Private) => "serving network name of a private network",
            None => "refused: number 2, layer 1 (unit), place 0: not a serving network name",
        })
    }
}
