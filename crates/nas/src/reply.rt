// Writes what the device sends into a buffer that is lent; bytes that are not written stay as they were.
ghost use Rattle.std.specs.Prelude.{◌≡◌};
ghost use Rattle.nas.specs.Replies.{framed, framed_length, response, response_packet, written, written_length};

use crate::message::{EAP_MESSAGE, EPD, PLAIN};

// The EAP responses that are given without the method.
#[derive(Clone, Copy, Debug, PartialEq, Eq)]
pub enum Response<'a> {
    Identity { suci: &'a [u8] },
    Notification,
    // The EAP type that the device wants in place of the one that it was asked for.
    Nak { wanted: u8 },
}

const AUTHENTICATION_RESPONSE: u8 = 0x57;

// The EAP code, and below it the EAP types.
const RESPONSE: u8 = 2;

const IDENTITY: u8 = 1;

const NOTIFICATION: u8 = 2;

const NAK: u8 = 3;

// Code, identifier, length and type.
const PACKET_HEADER: usize = 5;

// The plain header, the type of AUTHENTICATION RESPONSE, and the tag and length of the EAP message.
const MESSAGE_HEADER: usize = 6;

// Writes the packet of a response of any type to the start of `out` and tells its length; a packet that does not fit is not
// written.
pub fn write_response(identifier: u8, eap_type: u8, body: &[u8], out: &mut [u8]) -> Option<usize>
    ensures answer { result ≡ written_length (response_packet identifier eap_type body.now) out.old }
    ensures bytes { out.new ≡ written (response_packet identifier eap_type body.now) out.old }
{
    let len = body.len() + PACKET_HEADER;
    let [high, low] = u16::try_from(len).ok()?.to_be_bytes();
    if len > out.len() {
        return None;
    }
    out[..PACKET_HEADER].copy_from_slice(&[RESPONSE, identifier, high, low, eap_type]);
    out[PACKET_HEADER..len].copy_from_slice(body);
    Some(len)
}

impl Response<'_> {
    // Writes the packet to the start of `out` and tells its length; a packet that does not fit is not written.
    pub fn write(&self, identifier: u8, out: &mut [u8]) -> Option<usize>
        ensures answer { result ≡ written_length (response identifier self.now) out.old }
        ensures bytes { out.new ≡ written (response identifier self.now) out.old }
    {
        match self {
            Response::Identity { suci } => write_response(identifier, IDENTITY, suci, out),
            Response::Notification => write_response(identifier, NOTIFICATION, &[], out),
            Response::Nak { wanted } => write_response(identifier, NAK, &[*wanted], out),
        }
    }
}

// Makes an AUTHENTICATION RESPONSE of the packet that stands at byte 6, and tells the message's length.
#[tactic(auto, using(crate::proofs::Writes::reply_framed))]
pub fn frame_reply(buffer: &mut [u8], packet_len: usize) -> Option<usize>
    ensures answer { result ≡ framed_length packet_len buffer.old }
    ensures bytes { buffer.new ≡ framed packet_len buffer.old }
{
    let [high, low] = u16::try_from(packet_len).ok()?.to_be_bytes();
    if packet_len + MESSAGE_HEADER > buffer.len() {
        return None;
    }
    let header = [EPD, PLAIN, AUTHENTICATION_RESPONSE, EAP_MESSAGE, high, low];
    buffer[..MESSAGE_HEADER].copy_from_slice(&header);
    Some(packet_len + MESSAGE_HEADER)
}
