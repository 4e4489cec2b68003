// SHA-256 for a caller in C, to measure its speed.
#![tactic(auto)]

ghost use Rattle.std.specs.Prelude.{◌≡◌, ◌==◌, cond, length};
ghost use Rattle.digest.specs.Sha256.{sha256};

use digest::Sha256;

const DIGEST: usize = 32;

fn sha256_of(message: &[u8]) -> [u8; 32]
    ensures { result ≡ sha256 message.now }
{
    let mut hash = Sha256::new();
    hash.update(message);
    hash.finish()
}

// Writes the digest of the message into `out`, if that has its length.
#[unsafe(no_mangle)]
pub extern "C" fn proved_sha256(message: &[u8], out: &mut [u8])
    ensures { out.new ≡ cond (length out.old == 32) (sha256 message.now) out.old }
{
    let digest = sha256_of(message);
    if out.len() == DIGEST {
        out.copy_from_slice(&digest);
    }
}
