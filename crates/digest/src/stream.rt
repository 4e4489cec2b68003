// SHA-256 of a message that comes in pieces of any length.
ghost use Rattle.std.specs.Prelude.{◌≡◌, ℕ, ◌+◌, ◌-◌, ◌*◌, ◌/◌, ◌%◌, ◌^◌, ◌<◌, ◌≤◌, List, [], ◌∷◌, ◌++◌, length, take, drop, replicate};
ghost use Rattle.digest.specs.Absorbed.{Absorbed};
ghost use Rattle.digest.specs.Sha256.{hash_blocks, initial_hash_value, length_field, word_bytes, sha256};

use crate::block::compress_all;
use crate::state::Sha256;

const INITIAL: [u32; 8] = [
    0x6a09_e667,
    0xbb67_ae85,
    0x3c6e_f372,
    0xa54f_f53a,
    0x510e_527f,
    0x9b05_688c,
    0x1f83_d9ab,
    0x5be0_cd19,
];

// Where the length stands in the last block.
const LENGTH_AT: usize = 56;

// Writes `bytes` into `out` from `at` on.
pub(crate) fn put(out: &mut [u8], at: usize, bytes: &[u8])
    requires { at + length bytes.now ≤ length out.old }
    ensures after { out.new ≡ take at out.old ++ (bytes.now ++ drop (at + length bytes.now) out.old) }
    ensures front { take (at + length bytes.now) out.new ≡ take at out.old ++ bytes.now }
{
    out[at..at + bytes.len()].copy_from_slice(bytes);
}

fn initial_hash_value() -> [u32; 8]
    ensures { result ≡ initial_hash_value }
{
    INITIAL
}

// How many bytes have come in after `more` more, modulo 2^64.
fn count(total: u64, more: usize) -> u64
    ensures { result ≡ (total + more) % 2 ^ 64 }
{
    total.wrapping_add(more as u64)
}

// The length in bits, modulo 2^64.
fn bits(total: u64) -> u64
    ensures { result ≡ total * 8 % 2 ^ 64 }
{
    total.wrapping_mul(8)
}

// How many bytes the last `filled` bytes of a message take with the end mark, zeros and the length: one block or two.
fn padded_len(filled: usize) -> usize
    requires { filled < 64 }
    ensures { result ≡ filled + 1 + (119 - filled) % 64 + 8 }
{
    if filled < LENGTH_AT { 64 } else { 128 }
}

// Writes the one bit that ends a message, and the seven zeros after it.
fn put_end_mark(out: &mut [u8], at: usize)
    requires { at < length out.old }
    ensures { out.new ≡ take at out.old ++ ((0x80 ∷ []) ++ drop (at + 1) out.old) }
{
    put(out, at, &[0x80]);
}

// Hashes the end of a message: what is left of it, a one bit, zeros and its length in bits, in one block or two.
fn close(state: &mut [u32; 8], left: &[u8], length_in_bits: u64)
    requires { length left.now < 64 }
    ensures { (t : List ℕ) → t ≡ left.now ++ 0x80 ∷ (replicate ((119 - length left.now) % 64) 0 ++ length_field length_in_bits) → state.new ≡ hash_blocks (length t / 64) t state.old }
{
    let filled = left.len();
    let end = padded_len(filled);
    let mut tail = [0; 128];
    put(&mut tail, 0, left);
    put_end_mark(&mut tail, filled);
    put(&mut tail, end - 8, &length_in_bits.to_be_bytes());
    compress_all(state, &tail[0..end]);
}

// The bytes of the words, the highest of each first.
fn bytes_of(words: &[u32; 8]) -> [u8; 32]
    ensures { result ≡ word_bytes words.now }
{
    let mut out = [0; 32];
    // Written at a place each: of what is written through `chunks_exact_mut` a proof knows only the length.
    for (i, word) in words.iter().enumerate() {
        put(&mut out, 4 * i, &word.to_be_bytes());
    }
    out
}

impl Sha256 {
    #[tactic(auto, unfolding(crate::specs::Sha256::hash_blocks))]
    pub fn new() -> Sha256
        ensures { Absorbed result [] }
    {
        Sha256 {
            state: initial_hash_value(),
            buffer: [0; 64],
            filled: 0,
            total: 0,
        }
    }

    // Hashes whole blocks where they lie, and keeps the rest.
    fn absorb(&mut self, input: &[u8])
        ensures state { self.new.state ≡ hash_blocks (length input.now / 64) input.now self.old.state }
        ensures filled { self.new.filled ≡ length input.now % 64 }
        ensures rest { take self.new.filled self.new.buffer ≡ drop (64 * (length input.now / 64)) input.now }
        ensures total { self.new.total ≡ self.old.total }
    {
        compress_all(&mut self.state, input);
        let whole = input.len() / 64 * 64;
        let (_, rest) = input.split_at(whole);
        put(&mut self.buffer, 0, rest);
        self.filled = rest.len();
    }

    pub fn update(&mut self, input: &[u8])
        ensures { (m : List ℕ) → Absorbed self.old m → Absorbed self.new (m ++ input.now) }
    {
        self.total = count(self.total, input.len());
        let filled = self.filled;
        if filled == 0 {
            self.absorb(input);
        } else if input.len() < 64 - filled {
            put(&mut self.buffer, filled, input);
            self.filled = filled + input.len();
        } else {
            let (head, rest) = input.split_at(64 - filled);
            put(&mut self.buffer, filled, head);
            compress_all(&mut self.state, &self.buffer);
            self.absorb(rest);
        }
    }

    pub fn finish(self) -> [u8; 32]
        ensures { (m : List ℕ) → Absorbed self m → result ≡ sha256 m }
    {
        let mut state = self.state;
        close(&mut state, &self.buffer[0..self.filled], bits(self.total));
        bytes_of(&state)
    }
}
