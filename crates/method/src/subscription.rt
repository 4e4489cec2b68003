// What the device logs on with.
use keys::Octets;

#[derive(Clone, Copy)]
pub struct Subscription {
    // The subscription permanent identifier.
    pub supi: Octets<128>,
    // The serving network name.
    pub network: Octets<44>,
    // The most that a counter of unprotected rejects reaches.
    pub most: u8,
}
