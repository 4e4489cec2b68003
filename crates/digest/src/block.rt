// One block of SHA-256 (FIPS 180-4): the message schedule and the 64 rounds.
ghost use Rattle.std.specs.Prelude.{◌≡◌, ℕ, ◌+◌, ◌/◌, ◌<◌, ◌≤◌, List, length};
ghost use Rattle.digest.specs.Sha256.{big_sigma0, big_sigma1, small_sigma0, small_sigma1, round, rounds, schedule, schedule_word, compress, hash_blocks};

const K: [u32; 64] = [
    0x428a_2f98,
    0x7137_4491,
    0xb5c0_fbcf,
    0xe9b5_dba5,
    0x3956_c25b,
    0x59f1_11f1,
    0x923f_82a4,
    0xab1c_5ed5,
    0xd807_aa98,
    0x1283_5b01,
    0x2431_85be,
    0x550c_7dc3,
    0x72be_5d74,
    0x80de_b1fe,
    0x9bdc_06a7,
    0xc19b_f174,
    0xe49b_69c1,
    0xefbe_4786,
    0x0fc1_9dc6,
    0x240c_a1cc,
    0x2de9_2c6f,
    0x4a74_84aa,
    0x5cb0_a9dc,
    0x76f9_88da,
    0x983e_5152,
    0xa831_c66d,
    0xb003_27c8,
    0xbf59_7fc7,
    0xc6e0_0bf3,
    0xd5a7_9147,
    0x06ca_6351,
    0x1429_2967,
    0x27b7_0a85,
    0x2e1b_2138,
    0x4d2c_6dfc,
    0x5338_0d13,
    0x650a_7354,
    0x766a_0abb,
    0x81c2_c92e,
    0x9272_2c85,
    0xa2bf_e8a1,
    0xa81a_664b,
    0xc24b_8b70,
    0xc76c_51a3,
    0xd192_e819,
    0xd699_0624,
    0xf40e_3585,
    0x106a_a070,
    0x19a4_c116,
    0x1e37_6c08,
    0x2748_774c,
    0x34b0_bcb5,
    0x391c_0cb3,
    0x4ed8_aa4a,
    0x5b9c_ca4f,
    0x682e_6ff3,
    0x748f_82ee,
    0x78a5_636f,
    0x84c8_7814,
    0x8cc7_0208,
    0x90be_fffa,
    0xa450_6ceb,
    0xbef9_a3f7,
    0xc671_78f2,
];

// The four functions of FIPS 180-4, section 4.1.2, each under its own name: one function of the three amounts would hide the
// names behind numbers.
fn big_sigma0(x: u32) -> u32
    ensures { result ≡ big_sigma0 x }
{
    x.rotate_right(2) ^ x.rotate_right(13) ^ x.rotate_right(22)
}

fn big_sigma1(x: u32) -> u32
    ensures { result ≡ big_sigma1 x }
{
    x.rotate_right(6) ^ x.rotate_right(11) ^ x.rotate_right(25)
}

fn small_sigma0(x: u32) -> u32
    ensures { result ≡ small_sigma0 x }
{
    x.rotate_right(7) ^ x.rotate_right(18) ^ (x >> 3)
}

fn small_sigma1(x: u32) -> u32
    ensures { result ≡ small_sigma1 x }
{
    x.rotate_right(17) ^ x.rotate_right(19) ^ (x >> 10)
}

// One round, with its constant and its word of the schedule.
#[tactic(auto, using(crate::proofs::Sums::first_sum, crate::proofs::Sums::second_sum), unfolding(crate::specs::Sha256::add, crate::specs::Sha256::ch, crate::specs::Sha256::maj, crate::specs::Sha256::round))]
fn apply_round(s: [u32; 8], k: u32, w: u32) -> [u32; 8]
    ensures { result ≡ round s k w }
{
    let [a, b, c, d, e, f, g, h] = s;
    let choose = (e & f) ^ (!e & g);
    let majority = (a & b) ^ (a & c) ^ (b & c);
    // The part that is ready last comes last: the next round begins with this sum.
    let t1 = h
        .wrapping_add(k)
        .wrapping_add(w)
        .wrapping_add(choose)
        .wrapping_add(big_sigma1(e));
    let t2 = majority.wrapping_add(big_sigma0(a));
    [t1.wrapping_add(t2), a, b, c, d.wrapping_add(t1), e, f, g]
}

// Word `t` of the schedule, from those before it. The newest of them comes last: the sum of the word after next needs
// this one.
#[tactic(auto, using(crate::proofs::Sums::schedule_sum), unfolding(crate::specs::Sha256::add))]
fn schedule_word(w: &[u32; 64], t: usize) -> u32
    requires from { 16 ≤ t }
    requires below { t < 64 }
    ensures { result ≡ schedule_word w.now t }
{
    w[t - 16]
        .wrapping_add(small_sigma0(w[t - 15]))
        .wrapping_add(w[t - 7])
        .wrapping_add(small_sigma1(w[t - 2]))
}

// The 64 words of the message schedule of a block.
fn message_schedule(block: &[u8; 64]) -> [u32; 64]
    ensures { result ≡ schedule 48 block.now }
{
    let mut w = [0; 64];
    let (words, _) = block.as_chunks::<4>();
    // Written at a place each: of what is written through `iter_mut` a proof knows only the length.
    for (t, word) in words.iter().enumerate() {
        w[t] = u32::from_be_bytes(*word);
    }
    // Each word is made of those before it, so the loop counts.
    for t in 16..64 {
        w[t] = schedule_word(&w, t);
    }
    w
}

// The sixteen rounds from `t` on, in a row: the compiler then renames the eight words in place of moving them. One round a
// turn of a loop over all 64 is a tenth slower.
fn sixteen_rounds(s: &mut [u32; 8], t: usize, w: &[u32; 64])
    requires { t + 16 ≤ 64 }
    ensures { (start : List ℕ) → s.old ≡ rounds t w.now start → s.new ≡ rounds (t + 16) w.now start }
{
    let s0 = apply_round(*s, K[t], w[t]);
    let s1 = apply_round(s0, K[t + 1], w[t + 1]);
    let s2 = apply_round(s1, K[t + 2], w[t + 2]);
    let s3 = apply_round(s2, K[t + 3], w[t + 3]);
    let s4 = apply_round(s3, K[t + 4], w[t + 4]);
    let s5 = apply_round(s4, K[t + 5], w[t + 5]);
    let s6 = apply_round(s5, K[t + 6], w[t + 6]);
    let s7 = apply_round(s6, K[t + 7], w[t + 7]);
    let s8 = apply_round(s7, K[t + 8], w[t + 8]);
    let s9 = apply_round(s8, K[t + 9], w[t + 9]);
    let s10 = apply_round(s9, K[t + 10], w[t + 10]);
    let s11 = apply_round(s10, K[t + 11], w[t + 11]);
    let s12 = apply_round(s11, K[t + 12], w[t + 12]);
    let s13 = apply_round(s12, K[t + 13], w[t + 13]);
    let s14 = apply_round(s13, K[t + 14], w[t + 14]);
    *s = apply_round(s14, K[t + 15], w[t + 15]);
}

#[tactic(auto, unfolding(crate::specs::Sha256::rounds))]
fn all_rounds(s: &mut [u32; 8], w: &[u32; 64])
    ensures { s.new ≡ rounds 64 w.now s.old }
{
    for i in 0..4 {
        sixteen_rounds(s, 16 * i, w);
    }
}

// Takes one block into the hash value.
#[tactic(auto, unfolding(crate::specs::Sha256::add, crate::specs::Sha256::compress, crate::specs::Sha256::summed))]
fn compress_block(state: &mut [u32; 8], block: &[u8; 64])
    ensures { state.new ≡ compress state.old block.now }
{
    let w = message_schedule(block);
    let mut s = *state;
    all_rounds(&mut s, &w);
    let [a, b, c, d, e, f, g, h] = *state;
    *state = [
        a.wrapping_add(s[0]),
        b.wrapping_add(s[1]),
        c.wrapping_add(s[2]),
        d.wrapping_add(s[3]),
        e.wrapping_add(s[4]),
        f.wrapping_add(s[5]),
        g.wrapping_add(s[6]),
        h.wrapping_add(s[7]),
    ];
}

// Hashes the whole blocks of `bytes`, and leaves out what is left at its end.
pub(crate) fn compress_all(state: &mut [u32; 8], bytes: &[u8])
    ensures { state.new ≡ hash_blocks (length bytes.now / 64) bytes.now state.old }
{
    let (blocks, _) = bytes.as_chunks::<64>();
    for block in blocks {
        compress_block(state, block);
    }
}
