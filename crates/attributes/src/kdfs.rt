// The key derivation functions that the network offers.
ghost use Rattle.std.specs.Prelude.{◌≡◌, ◌-◌, ◌≤◌, drop, replicate};

// The most that AT_KDF may stand in a challenge.
pub(crate) const MOST_KDFS: usize = 8;

// The functions in the network's order, with the place of the first.
#[derive(Clone, Copy, Debug, PartialEq, Eq)]
pub struct Kdfs {
    pub at: u16,
    // The first `count` of them, and zeros behind, so that equal lists are equal values. An array and a count: the type can be
    // copied, and memory is fixed.
    pub(crate) values: [u16; 8],
    pub(crate) count: usize,
    ghost few: { count ≤ 8 },
    ghost rest: { drop count values ≡ replicate (8 - count) 0 },
}
