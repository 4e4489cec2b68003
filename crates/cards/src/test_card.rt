// The test card of TS 34.108: X is the key xor RAND, and everything else is made of X.
ghost use Rattle.std.specs.Prelude.{◌≡◌, ◌+◌, ◌<◌, ◌≤◌, ◌++◌, bit_xor, length, slice_index};
ghost use Rattle.cards.specs.TestCards.{anonymity_key, auts_of, concealed_in, is_genuine, mac_of, rotated_left, sequence_number, test_definition, test_holding, xored};

use crate::card::Card;
use crate::kinds::{CardOutcome, TestCard};
use std::array;

// The AMF in the MAC of AUTS.
const AUTS_AMF: [u8; 2] = [0, 0];

fn xor<const N: usize>(a: &[u8; N], b: &[u8; N]) -> [u8; N]
    ensures { result ≡ xored a.now b.now }
{
    array::from_fn(
        |i| -> u8
            requires { i < N }
            ensures { result ≡ bit_xor (slice_index a.entry.now i) (slice_index b.entry.now i) }
        { a[i] ^ b[i] },
    )
}

// One list of bytes after another. `keys` has the same for itself: a public one would have to ask that the lengths add up.
fn join<const N: usize>(first: &[u8], second: &[u8]) -> [u8; N]
    requires { length first.now + length second.now ≡ N }
    ensures { result ≡ first.now ++ second.now }
{
    let mut out = [0; N];
    let (front, back) = out.split_at_mut(first.len());
    front.copy_from_slice(first);
    back.copy_from_slice(second);
    out
}

fn sequence_number(s: &[u8; 6]) -> u64
    ensures { result ≡ sequence_number s.now }
{
    u64::from_be_bytes([0, 0, s[0], s[1], s[2], s[3], s[4], s[5]])
}

fn rotated(x: &[u8; 16], by: usize) -> [u8; 16]
    requires { by ≤ 16 }
    ensures { result ≡ rotated_left by x.now }
{
    let mut out = *x;
    out.rotate_left(by);
    out
}

// AK, which conceals a sequence number.
fn anonymity_key(x: &[u8; 16]) -> &[u8; 6]
    ensures { result.now ≡ anonymity_key x.now }
{
    x[3..].first_chunk().unwrap()
}

// The sequence number that AUTN conceals.
fn revealed(x: &[u8; 16], autn: &[u8; 16]) -> [u8; 6]
    ensures { result ≡ concealed_in x.now autn.now }
{
    xor(autn.first_chunk().unwrap(), anonymity_key(x))
}

// The MAC of a sequence number and an AMF.
fn mac(x: &[u8; 16], sequence: &[u8; 6], amf: &[u8; 2]) -> [u8; 8]
    ensures { result ≡ mac_of x.now sequence.now amf.now }
{
    xor(x.first_chunk().unwrap(), &join(sequence, amf))
}

// Whether AUTN has the MAC of its sequence number and its AMF.
fn is_genuine(x: &[u8; 16], sequence: &[u8; 6], autn: &[u8; 16]) -> bool
    ensures { result ≡ is_genuine x.now sequence.now autn.now }
{
    let expected = mac(x, sequence, &[autn[6], autn[7]]);
    expected[..] == autn[8..]
}

// AUTS: the card's own sequence number, concealed, and its MAC.
fn auts(x: &[u8; 16], own: &[u8; 6]) -> [u8; 14]
    ensures { result ≡ auts_of x.now own.now }
{
    join(&xor(own, anonymity_key(x)), &mac(x, own, &AUTS_AMF))
}

impl TestCard {
    // A card with this key; `sequence` is the highest sequence number that it has accepted.
    pub fn new(key: [u8; 16], sequence: [u8; 6]) -> TestCard
        ensures { test_holding result ≡ record { key = key; sequence = sequence } }
    {
        TestCard { key, sequence }
    }
}

impl Card for TestCard {
    ghost definition = { test_definition };

    ghost holding = { test_holding };

    fn ask(&mut self, rand: &[u8; 16], autn: &[u8; 16]) -> CardOutcome {
        let x = xor(&self.key, rand);
        let sequence = revealed(&x, autn);
        if !is_genuine(&x, &sequence, autn) {
            return CardOutcome::Wrong;
        }
        if sequence_number(&sequence) <= sequence_number(&self.sequence) {
            return CardOutcome::Stale {
                auts: auts(&x, &self.sequence),
            };
        }
        self.sequence = sequence;
        let ck = rotated(&x, 1);
        let ik = rotated(&x, 2);
        CardOutcome::Good { res: x, ck, ik }
    }
}
