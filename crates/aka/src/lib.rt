// EAP-AKA' (RFC 4187, RFC 5448) over any card. No heap.
#![tactic(auto)]

mod aka_prime;
mod decision;
mod fault;
mod reply;

pub use aka_prime::AkaPrime;
pub use fault::AkaFault;
