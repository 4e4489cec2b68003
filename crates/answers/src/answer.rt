// What the program answers to a line that it can read.
use crate::help::Help;
use crate::hex::Hex;
use crate::in_words::InWords;
use crate::log_on::LogOnKeys;
use crate::verdict::Processed;
use nas::NetworkKind;
use std::fmt;
use std::fmt::Display;

#[derive(Drop)]
pub enum Answer<'a> {
    Digest([u8; 32]),
    Mac([u8; 32]),
    Keys(LogOnKeys),
    Network(Option<NetworkKind>),
    // The message's bytes.
    Message(Vec<u8>),
    Help(Help),
    TestCard,
    RecordedCard,
    // The scripted method, with so many bytes of store.
    Scripted(usize),
    // How many rows there are now.
    Row(usize),
    // The packet is no request of the method's type, which is this.
    NotTaken(u8),
    Processed(Processed<'a>),
    Cleared,
    Block(Option<[u8; 128]>),
}

impl Display for Answer<'_> {
    fn fmt<W: fmt::Write>(&self, f: &mut fmt::Formatter<W>) -> fmt::Result {
        match self {
            Answer::Digest(bytes) => write!(f, "sha256 = {}", Hex(bytes)),
            Answer::Mac(bytes) => write!(f, "hmac = {}", Hex(bytes)),
            Answer::Keys(keys) => keys.fmt(f),
            Answer::Network(kind) => InWords(*kind).fmt(f),
            Answer::Message(bytes) => InWords(bytes.as_slice()).fmt(f),
            Answer::Help(help) => help.fmt(f),
            Answer::TestCard => f.write_str("EAP-AKA' with a test card"),
            Answer::RecordedCard => f.write_str("EAP-AKA' with a recorded card"),
            Answer::Scripted(bytes) => write!(f, "scripted method, {bytes} bytes of store"),
            Answer::Row(count) => write!(f, "row {count}"),
            Answer::NotTaken(eap_type) => write!(
                f,
                "refused: not an EAP request of type {eap_type} with 5 to 2048 bytes"
            ),
            Answer::Processed(processed) => processed.fmt(f),
            Answer::Cleared => f.write_str("cleared"),
            Answer::Block(Some(bytes)) => write!(f, "block = {}", Hex(bytes)),
            Answer::Block(None) => f.write_str("no block"),
        }
    }
}
