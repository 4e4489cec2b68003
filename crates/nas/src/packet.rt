// The EAP packet of RFC 3748, which is handed on as a part of the message that carries it.
ghost use Rattle.std.specs.Prelude.{◌≡◌};
ghost use Rattle.nas.specs.Outcomes.{seen};
ghost use Rattle.nas.specs.Packets.{code_in, eap_packet, packet_in};
ghost use Rattle.nas.specs.Parts.{field};

use crate::fault::PacketFault;
use crate::message::MessageType;
use crate::part::Part;

// The codes that the network sends.
#[derive(Clone, Copy, Debug, PartialEq, Eq)]
pub enum Code {
    Request,
    Success,
    Failure,
}

// The part is the whole packet, with the place of its first byte.
#[derive(Clone, Copy, Debug, PartialEq, Eq)]
pub struct Packet<'a> {
    pub code: Code,
    pub identifier: u8,
    pub part: Part<'a>,
}

const REQUEST: u8 = 1;

const SUCCESS: u8 = 3;

const FAILURE: u8 = 4;

// Code, identifier and length.
const HEADER_LEN: usize = 4;

// What the code says in this message, if it may stand there in a packet of this length.
fn code_in(message_type: MessageType, code: u8, len: usize) -> Option<Code>
    ensures { result ≡ code_in message_type code len }
{
    match message_type {
        MessageType::Request if code == REQUEST && len > HEADER_LEN => Some(Code::Request),
        MessageType::Result if code == SUCCESS && len == HEADER_LEN => Some(Code::Success),
        MessageType::Result | MessageType::Reject if code == FAILURE && len == HEADER_LEN => Some(
            Code::Failure,
        ),
        _ => None,
    }
}

pub(crate) fn read_packet<'a, F>(
    message_type: MessageType,
    part: Part<'a>,
) -> Result<Packet<'a>, PacketFault<F>>
    ensures { seen eap_packet result ≡ packet_in message_type (field part.entry) }
{
    let [code, identifier, high, low, ..] = part.bytes else {
        return Err(PacketFault::WrongLength { at: part.at });
    };
    let own = usize::from(u16::from_be_bytes([*high, *low]));
    if own != part.bytes.len() {
        return Err(PacketFault::WrongLength { at: part.at });
    }
    let Some(code) = code_in(message_type, *code, own) else {
        return Err(PacketFault::WrongCode { at: part.at });
    };
    Ok(Packet {
        code,
        identifier: *identifier,
        part,
    })
}
