// SHA-256 (FIPS 180-4), HMAC-SHA-256 (RFC 2104) and PRF' of EAP-AKA' (RFC 5448), with no heap.
#![tactic(auto)]

mod block;
mod mac;
mod prf;
mod state;
mod stream;

pub use prf::prf_prime;
pub use state::{Hmac, Sha256};
