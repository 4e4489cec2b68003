// Making and reading bounded bytes.
ghost use Rattle.std.specs.Prelude.{◌≡◌, ◌<◌, ◌≤◌, length};
ghost use Rattle.std.specs.Option.{option_map};
ghost use Rattle.keys.specs.Octets.{fitting, octets};

use crate::octets::Octets;

// The longest length that two bytes tell.
const LONGEST: usize = 65535;

impl<const N: usize> Octets<N> {
    // A copy of the bytes, if they are no more than N and than a length of two bytes can tell.
    pub fn new(bytes: &[u8]) -> Option<Octets<N>>
        ensures { option_map octets result ≡ fitting N bytes.now }
    {
        let len = bytes.len();
        if len > N || len > LONGEST {
            return None;
        }
        let mut held = [0; N];
        let (front, _) = held.split_at_mut(len);
        front.copy_from_slice(bytes);
        Some(Octets { held, len })
    }

    pub fn as_slice(&self) -> &[u8]
        ensures value { result.now ≡ octets self.now }
        ensures inside { length result.now ≤ N }
        ensures told { length result.now < 65536 }
    {
        let (front, _) = self.held.split_at(self.len);
        front
    }
}
