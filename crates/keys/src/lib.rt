// The keys of a log-on: CK' and IK', the key set of EAP-AKA', and the chain from KAUSF over KSEAF to KAMF. No heap.
#![tactic(auto)]

mod aka;
mod bounded;
mod chain;
mod kdf;
mod octets;

pub use aka::{AkaKeys, PrimeKeys};
pub use chain::{KeyChain, kamf, kausf, kseaf};
pub use octets::Octets;
