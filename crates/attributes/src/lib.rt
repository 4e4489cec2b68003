// Reads the requests of EAP-AKA' as parts of the packet that came.
#![tactic(auto)]

mod attribute;
mod fault;
mod gather;
mod kdfs;
mod request;

pub use attribute::{Attribute, IdentityKind, Subtype, UnknownSubtype};
pub use fault::{AttributeFault, RequestFault};
pub use gather::read_request;
pub use kdfs::Kdfs;
pub use request::{Challenge, IdentityRequest, Request, Sixteen};
