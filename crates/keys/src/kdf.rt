// The key derivation function of TS 33.220, annex B.2.
ghost use Rattle.std.specs.Prelude.{◌≡◌, map};
ghost use Rattle.keys.specs.Kdf.{kdf, Short};

use digest::Hmac;

pub(crate) fn derive_key(key: &[u8], fc: u8, parameters: &[&[u8]]) -> [u8; 32]
    requires { Short (map (λ x. x.now) parameters.now) }
    ensures { result ≡ kdf key.now fc (map (λ x. x.now) parameters.now) }
{
    let mut mac = Hmac::new(key);
    mac.update(&[fc]);
    for p in parameters {
        mac.update(p);
        let len = p.len() as u16;
        mac.update(&len.to_be_bytes());
    }
    mac.finish()
}
