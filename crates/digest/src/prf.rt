// PRF' (RFC 5448, section 3.4): 208 bytes from a key and a seed that comes in parts.
ghost use Rattle.std.specs.Prelude.{◌≡◌, ℕ, List, [], ◌∷◌, ◌++◌, map};
ghost use Rattle.digest.specs.Hmac.{hmac, joined, prf_prime};
ghost use Rattle.digest.specs.Keyed.{Keyed};

use crate::state::Hmac;
use crate::stream::put;

// T n, from T (n - 1), the seed and n.
fn next_block(keyed: &Hmac, last: &[u8], seed: &[&[u8]], number: u8) -> [u8; 32]
    ensures { (k : List ℕ) → Keyed keyed.now k [] → result ≡ hmac k (last.now ++ joined (map (λ x. x.now) seed.now) ++ number ∷ []) }
{
    let mut mac = *keyed;
    mac.update(last);
    for part in seed {
        mac.update(part);
    }
    mac.update(&[number]);
    mac.finish()
}

pub fn prf_prime(key: &[u8; 32], seed: &[&[u8]]) -> [u8; 208]
    ensures { result ≡ prf_prime key.now (joined (map (λ x. x.now) seed.now)) }
{
    let keyed = Hmac::new(key);
    let mut out = [0; 208];
    let mut last = next_block(&keyed, &[], seed, 1);
    put(&mut out, 0, &last);
    // The number of a block is hashed with it, so the loop counts.
    for n in 1..6u8 {
        let block = next_block(&keyed, &last, seed, n + 1);
        put(&mut out, 32 * n as usize, &block);
        last = block;
    }
    let block = next_block(&keyed, &last, seed, 7);
    put(&mut out, 192, &block[0..16]);
    out
}
