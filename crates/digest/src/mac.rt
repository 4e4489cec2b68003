// HMAC-SHA-256 (RFC 2104) of a message that comes in parts, under a key of any length.
ghost use Rattle.std.specs.Prelude.{◌≡◌, ℕ, ◌<◌, List, [], ◌++◌, map, length, bit_xor, nat_lt, slice_index};
ghost use Rattle.digest.specs.Hmac.{block_key, hmac};
ghost use Rattle.digest.specs.Keyed.{Keyed};

use crate::state::{Hmac, Sha256};
use crate::stream::put;
use std::array;

// The bytes of a block, B in the standard.
const BLOCK: usize = 64;

const INNER_PAD: u8 = 0x36;

const OUTER_PAD: u8 = 0x5c;

fn is_longer_than_block(key: &[u8]) -> bool
    ensures { result ≡ nat_lt 64 (length key.now) }
{
    key.len() > BLOCK
}

// The key as one block: hashed first where it is longer, and filled with zeros.
fn block_key(key: &[u8]) -> [u8; 64]
    ensures { result ≡ block_key key.now }
{
    let mut block = [0; 64];
    if is_longer_than_block(key) {
        let mut hash = Sha256::new();
        hash.update(key);
        let digest = hash.finish();
        put(&mut block, 0, &digest);
    } else {
        put(&mut block, 0, key);
    }
    block
}

fn masked(block: &[u8; 64], pad: u8) -> [u8; 64]
    ensures { result ≡ map (λ b. bit_xor b pad) block.now }
{
    // In place of `map`, which goes over the block three times.
    array::from_fn(
        |i| -> u8
            requires { i < 64 }
            ensures { result ≡ bit_xor (slice_index block.entry.now i) pad }
        { block[i] ^ pad },
    )
}

impl Hmac {
    pub fn new(key: &[u8]) -> Hmac
        ensures { Keyed result key.now [] }
    {
        let block = block_key(key);
        let mut inner = Sha256::new();
        inner.update(&masked(&block, INNER_PAD));
        let mut outer = Sha256::new();
        outer.update(&masked(&block, OUTER_PAD));
        Hmac { inner, outer }
    }

    pub fn update(&mut self, part: &[u8])
        ensures { (k m : List ℕ) → Keyed self.old k m → Keyed self.new k (m ++ part.now) }
    {
        self.inner.update(part);
    }

    #[tactic(auto, unfolding(crate::specs::Hmac::hmac))]
    pub fn finish(self) -> [u8; 32]
        ensures { (k m : List ℕ) → Keyed self k m → result ≡ hmac k m }
    {
        let digest = self.inner.finish();
        let mut outer = self.outer;
        outer.update(&digest);
        outer.finish()
    }
}
