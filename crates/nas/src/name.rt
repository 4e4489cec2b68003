// The name of a serving network (TS 24.501, TS 23.003): fixed texts at their places, with digits between them.
ghost use Rattle.std.specs.Prelude.{◌≡◌, ◌+◌, ◌≤◌, length};
ghost use Rattle.std.specs.Str.{bytes_eq};
ghost use Rattle.nas.specs.Names.{all_digits, is_digit, labelled, network_kind, nid_after, plmn_name};
ghost use Rattle.nas.specs.Parts.{cut};

// A private network is a stand-alone non-public network (SNPN): its name ends with a network identifier (NID).
#[derive(Clone, Copy, Debug, PartialEq, Eq)]
pub enum NetworkKind {
    Public,
    Private,
}

#[derive(Clone, Copy)]
enum Base {
    Decimal,
    Hexadecimal,
}

const PUBLIC_LEN: usize = 32;

const PRIVATE_LEN: usize = 44;

fn is_digit(base: Base, b: u8) -> bool
    ensures { result ≡ is_digit base b }
{
    match base {
        Base::Decimal => b.is_ascii_digit(),
        Base::Hexadecimal => matches!(b, b'0'..=b'9' | b'A'..=b'F'),
    }
}

fn all_digits(base: Base, s: &[u8]) -> bool
    ensures { result ≡ all_digits base s.now }
{
    s.iter().all(|b| is_digit(base, *b))
}

// Whether the text stands in the name at this place.
fn stands(name: &[u8], at: usize, text: &[u8]) -> bool
    requires { at + length text.now ≤ length name.now }
    ensures { result ≡ bytes_eq (cut name.now at (length text.now)) text.now }
{
    &name[at..at + text.len()] == text
}

// Whether the text stands there with three digits after it.
fn is_labelled(name: &[u8], at: usize, text: &[u8]) -> bool
    requires { at + length text.now + 3 ≤ length name.now }
    ensures { result ≡ labelled name.now at text.now }
{
    let end = at + text.len();
    stands(name, at, text) && all_digits(Base::Decimal, &name[end..end + 3])
}

// Whether the name starts as that of a public network.
fn has_plmn(name: &[u8]) -> bool
    requires { 32 ≤ length name.now }
    ensures { result ≡ plmn_name name.now }
{
    is_labelled(name, 0, b"5G:mnc")
        && is_labelled(name, 9, b".mcc")
        && stands(name, 16, b".3gppnetwork.org")
}

// Whether a colon and a network identifier of eleven digits follow.
fn has_nid(name: &[u8]) -> bool
    requires { 44 ≤ length name.now }
    ensures { result ≡ nid_after name.now }
{
    name[PUBLIC_LEN] == b':' && all_digits(Base::Hexadecimal, &name[PUBLIC_LEN + 1..PRIVATE_LEN])
}

// What kind of network has this name, if it is a serving network's name.
#[tactic(auto, unfolding(crate::specs::Names::network_kind))]
pub fn network_kind(name: &[u8]) -> Option<NetworkKind>
    ensures { result ≡ network_kind name.now }
{
    match name.len() {
        PUBLIC_LEN => has_plmn(name).then_some(NetworkKind::Public),
        PRIVATE_LEN => (has_plmn(name) && has_nid(name)).then_some(NetworkKind::Private),
        _ => None,
    }
}
