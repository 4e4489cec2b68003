// A part of a message, which stays where it lies.
ghost use Rattle.std.specs.Prelude.{◌≡◌, ◌^◌, ◌<◌, slice_index};
ghost use Rattle.std.specs.Option.{option_map};
ghost use Rattle.nas.specs.Parts.{behind, two_bytes};

// Some bytes of a message, and a place in it: of the first of them, or of the tag or length before it.
#[derive(Clone, Copy, Debug, PartialEq, Eq)]
pub struct Part<'a> {
    pub at: u16,
    pub bytes: &'a [u8],
}

impl<'a> Part<'a> {
    pub(crate) fn at(at: usize, bytes: &'a [u8]) -> Part<'a>
        requires { at < 2 ^ 16 }
        ensures place { result.at ≡ at }
        ensures bytes { result.bytes.now ≡ bytes.now }
    {
        Part {
            at: at as u16,
            bytes,
        }
    }
}

// Formats LV and LV-E: the value behind one length byte, or behind two, if all of it is there. Two functions, since a pattern
// names the bytes of each length; one of either length would have to fold them.
pub(crate) fn lv<'a>(bytes: &'a [u8]) -> Option<&'a [u8]>
    ensures { option_map (λ v. v.now) result ≡ behind 1 (slice_index bytes.now 0) bytes.now }
{
    let [len, rest @ ..] = bytes else {
        return None;
    };
    rest.get(..usize::from(*len))
}

pub(crate) fn lv_e<'a>(bytes: &'a [u8]) -> Option<&'a [u8]>
    ensures { option_map (λ v. v.now) result ≡ behind 2 (two_bytes bytes.now 0) bytes.now }
{
    let [high, low, rest @ ..] = bytes else {
        return None;
    };
    rest.get(..usize::from(u16::from_be_bytes([*high, *low])))
}
