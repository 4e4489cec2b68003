// The chain KAUSF, KSEAF, KAMF (TS 33.501, annexes A.6 and A.7).
ghost use Rattle.std.specs.Prelude.{◌≡◌};
ghost use Rattle.keys.specs.Keys.{kamf_of, kausf_of, kseaf_of};
ghost use Rattle.keys.specs.Octets.{octets};

use crate::aka::part;
use crate::kdf::derive_key;
use crate::octets::Octets;

// The functions' codes in the derivations of KSEAF and of KAMF.
const FC_KSEAF: u8 = 0x6c;

const FC_KAMF: u8 = 0x6d;

// The three keys that a log-on leaves, each made from the one before.
#[derive(Clone, Copy)]
pub struct KeyChain {
    pub kausf: [u8; 32],
    pub kseaf: [u8; 32],
    pub kamf: [u8; 32],
}

pub fn kausf(emsk: &[u8; 64]) -> [u8; 32]
    ensures { result ≡ kausf_of emsk.now }
{
    part(emsk, 0)
}

pub fn kseaf<const N: usize>(kausf: &[u8; 32], network: &Octets<N>) -> [u8; 32]
    ensures { result ≡ kseaf_of kausf.now (octets network.now) }
{
    derive_key(kausf, FC_KSEAF, &[network.as_slice()])
}

pub fn kamf<const S: usize, const B: usize>(
    kseaf: &[u8; 32],
    supi: &Octets<S>,
    abba: &Octets<B>,
) -> [u8; 32]
    ensures { result ≡ kamf_of kseaf.now (octets supi.now) (octets abba.now) }
{
    derive_key(kseaf, FC_KAMF, &[supi.as_slice(), abba.as_slice()])
}

impl KeyChain {
    // The chain that begins with this KAUSF.
    pub fn from_kausf<const N: usize, const S: usize, const B: usize>(
        first: &[u8; 32],
        network: &Octets<N>,
        supi: &Octets<S>,
        abba: &Octets<B>,
    ) -> KeyChain
        ensures kausf { result.kausf ≡ first.now }
        ensures kseaf { result.kseaf ≡ kseaf_of first.now (octets network.now) }
        ensures kamf { result.kamf ≡ kamf_of (kseaf_of first.now (octets network.now)) (octets supi.now) (octets abba.now) }
    {
        let kseaf = kseaf(first, network);
        let kamf = kamf(&kseaf, supi, abba);
        KeyChain {
            kausf: *first,
            kseaf,
            kamf,
        }
    }
}
