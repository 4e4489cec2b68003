// The network's authentication messages, whose parts stay where they lie.
ghost use Rattle.std.specs.Prelude.{◌≡◌, ◌+◌, ◌≤◌, IfErr, length};
ghost use Rattle.std.specs.Option.{option_map};
ghost use Rattle.std.specs.Result.{result_ok};
ghost use Rattle.nas.specs.Reading.{unread};
ghost use Rattle.nas.specs.Faults.{IsOwn};
ghost use Rattle.nas.specs.Messages.{contents, contents_of, fixed, fixed_in, for_keys, mandatory, message_type_of, ngksi_of, read_message, reject_of, request_of, result_of, start_of};
ghost use Rattle.nas.specs.Outcomes.{IfRead, seen};
ghost use Rattle.nas.specs.Parts.{field};
ghost use Rattle.nas.specs.Sound.{Sound};

use crate::elements::Elements;
use crate::fault::{ElementFault, MessageFault};
use crate::packet::{Code, Packet, read_packet};
use crate::part::{Part, lv, lv_e};
use crate::reader::Reader;

// AUTHENTICATION REQUEST, RESULT and REJECT of TS 24.501.
#[derive(Clone, Copy)]
pub enum MessageType {
    Request,
    Result,
    Reject,
}

// A result is a success or a failure by its packet's code.
// The ABBA has the place of its length byte in a request, and of its tag in a success.
#[derive(Clone, Copy, Debug, PartialEq, Eq)]
pub enum Message<'a> {
    Request {
        ngksi: u8,
        abba: Part<'a>,
        packet: Packet<'a>,
    },
    Success {
        ngksi: u8,
        abba: Part<'a>,
        packet: Packet<'a>,
    },
    Failure {
        packet: Packet<'a>,
    },
    Reject {
        packet: Option<Packet<'a>>,
    },
}

// The mandatory parts, which stand before the elements.
#[derive(Clone, Copy)]
pub(crate) enum Mandatory<'a> {
    Request { ngksi: u8, abba: Part<'a> },
    Result { ngksi: u8, eap: Part<'a> },
    Reject,
}

// The extended protocol discriminator of 5GS mobility management.
pub(crate) const EPD: u8 = 0x7e;

// The security header type of a message that is not protected.
pub(crate) const PLAIN: u8 = 0x00;

const MAX_LEN: usize = 2048;

pub(crate) const EAP_MESSAGE: u8 = 0x78;

const ABBA: u8 = 0x38;

// The low three bits of an ngKSI that say that there is no key set.
const NO_KEY_SET: u8 = 7;

const ABBA_MIN_LEN: usize = 2;

// A byte that stands for none of the types.
#[derive(Clone, Copy)]
pub struct UnknownType(());

impl TryFrom<u8> for MessageType {
    type Error = UnknownType;

    ghost try_from_gives = { λ byte r. result_ok r ≡ message_type_of byte };

    fn try_from(byte: u8) -> Result<MessageType, UnknownType> {
        match byte {
            0x56 => Ok(MessageType::Request),
            0x5a => Ok(MessageType::Result),
            0x58 => Ok(MessageType::Reject),
            _ => Err(UnknownType(())),
        }
    }
}

fn read_ngksi(msg: &[u8]) -> Result<u8, ElementFault>
    ensures { result ≡ ngksi_of msg.now }
{
    let ngksi = msg.get(3).ok_or(ElementFault::Cut { at: 3 })?;
    Ok(*ngksi % 16)
}

impl<'a> Mandatory<'a> {
    fn read(message_type: MessageType, msg: &'a [u8]) -> Result<Mandatory<'a>, ElementFault>
        requires { 3 ≤ length msg.now }
        ensures value { seen fixed result ≡ fixed_in message_type msg.now }
        ensures inside { IfRead (λ h. start_of (fixed h) ≤ length msg.now) result }
    {
        match message_type {
            MessageType::Request => {
                let ngksi = read_ngksi(msg)?;
                let bytes = msg
                    .get(4..)
                    .and_then(lv)
                    .ok_or(ElementFault::Cut { at: 4 })?;
                let abba = Part { at: 4, bytes };
                Ok(Mandatory::Request { ngksi, abba })
            }
            MessageType::Result => {
                let ngksi = read_ngksi(msg)?;
                let bytes = msg
                    .get(4..)
                    .and_then(lv_e)
                    .ok_or(ElementFault::Cut { at: 4 })?;
                let eap = Part { at: 6, bytes };
                Ok(Mandatory::Result { ngksi, eap })
            }
            MessageType::Reject => Ok(Mandatory::Reject),
        }
    }

    // Where the elements start.
    pub(crate) fn end(&self) -> usize
        requires { start_of (fixed self.now) ≤ 2048 }
        ensures { result ≡ start_of (fixed self.now) }
    {
        match self {
            Mandatory::Request { abba, .. } => 5 + abba.bytes.len(),
            Mandatory::Result { eap, .. } => 6 + eap.bytes.len(),
            Mandatory::Reject => 3,
        }
    }
}

// The mandatory parts of a whole message: 3 to 2,048 bytes, not protected, and of one of the three types.
pub(crate) fn read_mandatory<'a, F>(msg: &'a [u8]) -> Result<Mandatory<'a>, MessageFault<F>>
    ensures value { seen fixed result ≡ mandatory msg.now }
    ensures inside { IfRead (λ h. start_of (fixed h) ≤ length msg.now) result }
    ensures short { IfRead (λ _. length msg.now ≤ 2048) result }
{
    let [EPD, PLAIN, message_type, ..] = msg else {
        return Err(MessageFault::WrongHeader);
    };
    if msg.len() > MAX_LEN {
        return Err(MessageFault::WrongHeader);
    }
    let message_type = MessageType::try_from(*message_type)?;
    Ok(Mandatory::read(message_type, msg)?)
}

// The ABBA, if keys can be made with it and with the key set.
// Stays `let .. else`, as where the EAP message is missing: `ok_or` would ask that a method's fault may be dropped.
fn check_keys<'a, F>(
    ngksi: u8,
    abba: Option<Part<'a>>,
    len: u16,
) -> Result<Part<'a>, MessageFault<F>>
    ensures { seen field result ≡ for_keys ngksi (option_map field abba.entry) len }
{
    if ngksi % 8 == NO_KEY_SET {
        return Err(MessageFault::NoKeySet);
    }
    let Some(abba) = abba else {
        return Err(MessageFault::WrongAbba { at: len });
    };
    if abba.bytes.len() < ABBA_MIN_LEN {
        return Err(MessageFault::WrongAbba { at: abba.at });
    }
    Ok(abba)
}

fn read_request<'a, F>(
    elements: Elements<'a>,
    ngksi: u8,
    abba: Part<'a>,
) -> Result<Message<'a>, MessageFault<F>>
    ensures { seen contents result ≡ request_of ngksi (field abba.entry) (unread elements.entry) (length elements.entry.bytes.now) }
{
    let len = elements.len();
    let Some(eap) = elements.with_tag(EAP_MESSAGE)? else {
        return Err(MessageFault::NoEapMessage { at: len });
    };
    let packet = read_packet(MessageType::Request, eap.value())?;
    let abba = check_keys(ngksi, Some(abba), len)?;
    Ok(Message::Request {
        ngksi,
        abba,
        packet,
    })
}

fn read_result<'a, F>(
    elements: Elements<'a>,
    ngksi: u8,
    eap: Part<'a>,
) -> Result<Message<'a>, MessageFault<F>>
    ensures { seen contents result ≡ result_of ngksi (field eap.entry) (unread elements.entry) (length elements.entry.bytes.now) }
{
    let len = elements.len();
    let found = elements.with_tag(ABBA)?;
    let packet = read_packet(MessageType::Result, eap)?;
    match packet.code {
        Code::Success => {
            let abba = found.map(|element| element.at_tag());
            let abba = check_keys(ngksi, abba, len)?;
            Ok(Message::Success {
                ngksi,
                abba,
                packet,
            })
        }
        _ => Ok(Message::Failure { packet }),
    }
}

fn read_reject<'a, F>(elements: Elements<'a>) -> Result<Message<'a>, MessageFault<F>>
    ensures { seen contents result ≡ reject_of (unread elements.entry) }
{
    let Some(eap) = elements.with_tag(EAP_MESSAGE)? else {
        return Ok(Message::Reject { packet: None });
    };
    let packet = read_packet(MessageType::Reject, eap.value())?;
    Ok(Message::Reject {
        packet: Some(packet),
    })
}

// The message with these mandatory parts and these elements.
fn read_elements<'a, F>(
    mandatory: Mandatory<'a>,
    elements: Elements<'a>,
) -> Result<Message<'a>, MessageFault<F>>
    ensures { seen contents result ≡ contents_of (fixed mandatory.entry) (unread elements.entry) (length elements.entry.bytes.now) }
{
    match mandatory {
        Mandatory::Request { ngksi, abba } => read_request(elements, ngksi, abba),
        Mandatory::Result { ngksi, eap } => read_result(elements, ngksi, eap),
        Mandatory::Reject => read_reject(elements),
    }
}

// Reads a whole message, or says which question it fails first, and where.
#[tactic(auto, unfolding(crate::specs::Messages::read_message))]
pub fn read<'a, F>(msg: &'a [u8]) -> Result<Message<'a>, MessageFault<F>>
    ensures value { seen contents result ≡ read_message msg.now }
    ensures sound { IfRead (Sound msg.now) (seen contents result) }
    ensures own { IfErr result IsOwn }
{
    let mandatory = read_mandatory(msg)?;
    let elements = Reader::of(msg, mandatory.end());
    read_elements(mandatory, elements)
}
