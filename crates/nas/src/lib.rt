// Reads the network's authentication messages as parts of the bytes that came, and writes the replies to them.
#![tactic(auto)]

mod cases;
mod element;
mod elements;
mod fault;
mod message;
mod name;
mod packet;
mod part;
mod reader;
mod reply;

pub use cases::worked_cases;
pub use element::Element;
pub use elements::Elements;
pub use fault::{ElementFault, MessageFault, MethodFault, NoMethod, PacketFault};
pub use message::{Message, read};
pub use name::{NetworkKind, network_kind};
pub use packet::{Code, Packet};
pub use part::Part;
pub use reader::{Readable, Reader};
pub use reply::{Response, frame_reply, write_response};
