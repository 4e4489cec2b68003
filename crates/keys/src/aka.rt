// CK' and IK', and the key set of EAP-AKA' (RFC 5448, section 3.3; TS 33.501, annex A.3).
ghost use Rattle.std.specs.Prelude.{◌≡◌, ◌+◌, ◌≤◌, ◌++◌, length, take, drop};
ghost use Rattle.keys.specs.Keys.{ck_ik_prime, ck_prime, ik_prime, emsk_of, k_aut_of, k_encr_of, k_re_of, master_key, msk_of};
ghost use Rattle.keys.specs.Octets.{octets};

use crate::kdf::derive_key;
use crate::octets::Octets;
use digest::prf_prime;

// The function's code in the derivation of CK' and IK'.
const FC_PRIME: u8 = 0x20;

// CK' and IK', which are bound to the serving network.
#[derive(Clone, Copy)]
pub struct PrimeKeys {
    pub ck: [u8; 16],
    pub ik: [u8; 16],
}

#[derive(Clone, Copy)]
pub struct AkaKeys {
    pub k_encr: [u8; 16],
    pub k_aut: [u8; 32],
    pub k_re: [u8; 32],
    pub msk: [u8; 64],
    pub emsk: [u8; 64],
}

// The N bytes from `at` on.
pub(crate) fn part<const N: usize>(bytes: &[u8], at: usize) -> [u8; N]
    requires { at + N ≤ length bytes.now }
    ensures { result ≡ take N (drop at bytes.now) }
{
    *bytes[at..].first_chunk().unwrap()
}

// One list of bytes after another.
fn join<const N: usize>(first: &[u8], second: &[u8]) -> [u8; N]
    requires { length first.now + length second.now ≡ N }
    ensures { result ≡ first.now ++ second.now }
{
    let mut out = [0; N];
    let (front, back) = out.split_at_mut(first.len());
    front.copy_from_slice(first);
    back.copy_from_slice(second);
    out
}

// CK' and IK' one after the other.
fn ck_ik_prime<const N: usize>(
    ck: &[u8; 16],
    ik: &[u8; 16],
    network: &Octets<N>,
    autn: &[u8; 16],
) -> [u8; 32]
    ensures { result ≡ ck_ik_prime ck.now ik.now (octets network.now) autn.now }
{
    let key: [u8; 32] = join(ck, ik);
    derive_key(&key, FC_PRIME, &[network.as_slice(), &autn[0..6]])
}

impl PrimeKeys {
    pub fn derive<const N: usize>(
        ck: &[u8; 16],
        ik: &[u8; 16],
        network: &Octets<N>,
        autn: &[u8; 16],
    ) -> PrimeKeys
        ensures ck { result.ck ≡ ck_prime ck.now ik.now (octets network.now) autn.now }
        ensures ik { result.ik ≡ ik_prime ck.now ik.now (octets network.now) autn.now }
    {
        let both = ck_ik_prime(ck, ik, network, autn);
        PrimeKeys {
            ck: part(&both, 0),
            ik: part(&both, 16),
        }
    }
}

// The master key MK. IK' comes before CK' in its key.
fn master_key(prime: &PrimeKeys, identity: &[u8]) -> [u8; 208]
    ensures { result ≡ master_key prime.now.ck prime.now.ik identity.now }
{
    let key = join(&prime.ik, &prime.ck);
    prf_prime(&key, &[b"EAP-AKA'", identity])
}

impl AkaKeys {
    pub fn derive(prime: &PrimeKeys, identity: &[u8]) -> AkaKeys
        ensures k_encr { result.k_encr ≡ k_encr_of (master_key prime.now.ck prime.now.ik identity.now) }
        ensures k_aut { result.k_aut ≡ k_aut_of (master_key prime.now.ck prime.now.ik identity.now) }
        ensures k_re { result.k_re ≡ k_re_of (master_key prime.now.ck prime.now.ik identity.now) }
        ensures msk { result.msk ≡ msk_of (master_key prime.now.ck prime.now.ik identity.now) }
        ensures emsk { result.emsk ≡ emsk_of (master_key prime.now.ck prime.now.ik identity.now) }
    {
        let mk = master_key(prime, identity);
        AkaKeys {
            k_encr: part(&mk, 0),
            k_aut: part(&mk, 16),
            k_re: part(&mk, 48),
            msk: part(&mk, 80),
            emsk: part(&mk, 144),
        }
    }

    // The key material that a log-on leaves: MSK, then EMSK.
    pub fn key_block(&self) -> [u8; 128]
        ensures { result ≡ self.now.msk ++ self.now.emsk }
    {
        join(&self.msk, &self.emsk)
    }
}
