// Every key of a log-on, and from what each is derived.
use crate::hex::Hex;
use crate::in_words::InWords;
use keys::{AkaKeys, KeyChain, PrimeKeys};
use std::fmt;
use std::fmt::Display;

#[derive(Clone, Copy)]
pub struct LogOnKeys {
    pub prime: PrimeKeys,
    pub aka: AkaKeys,
    pub chain: KeyChain,
}

impl Display for LogOnKeys {
    fn fmt<W: fmt::Write>(&self, f: &mut fmt::Formatter<W>) -> fmt::Result {
        let prime = InWords(&self.prime);
        let aka = InWords(&self.aka);
        let chain = InWords(&self.chain);
        write!(f, "{prime}\n{aka}\n{chain}")
    }
}

impl Display for InWords<&PrimeKeys> {
    fn fmt<W: fmt::Write>(&self, f: &mut fmt::Formatter<W>) -> fmt::Result {
        let ck = Hex(&self.0.ck);
        let ik = Hex(&self.0.ik);
        write!(
            f,
            "CK' || IK' = KDF(CK || IK, 20, SNN, AUTN[0..5])
  CK'    = {ck}
  IK'    = {ik}"
        )
    }
}

impl Display for InWords<&AkaKeys> {
    fn fmt<W: fmt::Write>(&self, f: &mut fmt::Formatter<W>) -> fmt::Result {
        let k_encr = Hex(&self.0.k_encr);
        let k_aut = Hex(&self.0.k_aut);
        let k_re = Hex(&self.0.k_re);
        let msk = Hex(&self.0.msk);
        let emsk = Hex(&self.0.emsk);
        write!(
            f,
            "MK = PRF'(IK' || CK', \"EAP-AKA'\" || SUPI)
  K_encr = {k_encr}
  K_aut  = {k_aut}
  K_re   = {k_re}
  MSK    = {msk}
  EMSK   = {emsk}"
        )
    }
}

impl Display for InWords<&KeyChain> {
    fn fmt<W: fmt::Write>(&self, f: &mut fmt::Formatter<W>) -> fmt::Result {
        let kausf = Hex(&self.0.kausf);
        let kseaf = Hex(&self.0.kseaf);
        let kamf = Hex(&self.0.kamf);
        write!(
            f,
            "KAUSF = first 32 bytes of EMSK
  KAUSF  = {kausf}
KSEAF = KDF(KAUSF, 6C, SNN)
  KSEAF  = {kseaf}
KAMF = KDF(KSEAF, 6D, SUPI, ABBA)
  KAMF   = {kamf}"
        )
    }
}
