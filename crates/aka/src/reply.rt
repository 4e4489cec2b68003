// What the device answers, and the bytes of it.
ghost use Rattle.std.specs.Prelude.{◌≡◌, ◌+◌, ◌≤◌, ◌++◌, map, length};
ghost use Rattle.arrayvec.specs.ArrayVec.{array_vec_len};
ghost use Rattle.digest.specs.Hmac.{joined};
ghost use Rattle.keys.specs.Octets.{octets};
ghost use Rattle.attributes.specs.Requests.{kdf_list};
ghost use Rattle.aka.specs.Replies.{answer, authentication_reject_body, body_of, challenge_body, challenge_front, client_error_body, identity_body, kdf_attribute, mac_with, synchronization_failure_body};

use arrayvec::ArrayVec;
use attributes::Kdfs;
use digest::Hmac;
use keys::Octets;

#[derive(Clone, Copy)]
pub(crate) enum Reply {
    ClientError,
    AuthenticationReject,
    SynchronizationFailure { auts: [u8; 14], kdfs: Kdfs },
    // The SUCI.
    Identity,
    // The card's answer to the challenge, and the key of its MAC.
    Challenge { res: [u8; 16], k_aut: [u8; 32] },
}

// The EAP code of a response.
const RESPONSE: u8 = 2;

pub(crate) const EAP_TYPE: u8 = 50;

// The subtypes.
const CHALLENGE: u8 = 1;

const AUTHENTICATION_REJECT: u8 = 2;

const SYNCHRONIZATION_FAILURE: u8 = 4;

const IDENTITY: u8 = 5;

const CLIENT_ERROR: u8 = 14;

// The attributes.
const AT_RES: u8 = 3;

const AT_AUTS: u8 = 4;

const AT_MAC: u8 = 11;

const AT_IDENTITY: u8 = 14;

const AT_CLIENT_ERROR_CODE: u8 = 22;

const AT_KDF: u8 = 24;

// The bits of RES.
const RES_BITS: u8 = 128;

// The length of the whole reply to a challenge.
const CHALLENGE_LEN: u8 = 48;

// The body of a reply, which is what stands behind its EAP type. The longest is an identity of 255 bytes, behind subtype and
// header, filled up to a word.
type Body = ArrayVec<u8, 264>;

// Adds a part at the end.
fn put(body: &mut Body, part: &[u8])
    requires { array_vec_len body.old + length part.now ≤ 264 }
    ensures { body.new.items ≡ body.old.items ++ part.now }
{
    body.try_extend_from_slice(part).unwrap();
}

// The first 16 bytes of the HMAC of three parts, one after another.
pub(crate) fn mac_of(k_aut: &[u8; 32], first: &[u8], second: &[u8], third: &[u8]) -> [u8; 16]
    ensures { result ≡ mac_with k_aut.now (first.now ++ (second.now ++ third.now)) }
{
    let mut hmac = Hmac::new(k_aut);
    hmac.update(first);
    hmac.update(second);
    hmac.update(third);
    *hmac.finish().first_chunk().unwrap()
}

fn client_error() -> Body
    ensures { result.items ≡ client_error_body }
{
    let mut body = Body::new();
    put(
        &mut body,
        &[CLIENT_ERROR, 0, 0, AT_CLIENT_ERROR_CODE, 1, 0, 0],
    );
    body
}

fn authentication_reject() -> Body
    ensures { result.items ≡ authentication_reject_body }
{
    let mut body = Body::new();
    put(&mut body, &[AUTHENTICATION_REJECT, 0, 0]);
    body
}

// Adds the attributes AT_KDF of a challenge, as it had them.
fn put_kdfs(body: &mut Body, kdfs: &Kdfs)
    requires { array_vec_len body.old + 32 ≤ 264 }
    ensures items { body.new.items ≡ body.old.items ++ joined (map kdf_attribute (kdf_list kdfs.now).values) }
    ensures short { array_vec_len body.new ≤ array_vec_len body.old + 32 }
{
    let values = kdfs.values();
    for value in values {
        let [high, low] = value.to_be_bytes();
        put(body, &[AT_KDF, 1, high, low]);
    }
}

fn synchronization_failure(auts: &[u8; 14], kdfs: &Kdfs) -> Body
    ensures { result.items ≡ synchronization_failure_body auts.now (kdf_list kdfs.now).values }
{
    let mut body = Body::new();
    put(&mut body, &[SYNCHRONIZATION_FAILURE, 0, 0, AT_AUTS, 4]);
    put(&mut body, auts);
    put_kdfs(&mut body, kdfs);
    body
}

fn identity(suci: &Octets<255>) -> Body
    ensures { result.items ≡ identity_body (octets suci.now) }
{
    let suci = suci.as_slice();
    let len = suci.len();
    let words = (len + 7) / 4;
    let [high, low] = (len as u16).to_be_bytes();
    let mut body = Body::new();
    put(
        &mut body,
        &[IDENTITY, 0, 0, AT_IDENTITY, words as u8, high, low],
    );
    put(&mut body, suci);
    put(&mut body, &[0; 3][..4 * words - 4 - len]);
    body
}

// The reply to a challenge up to its MAC.
fn challenge_front(res: &[u8; 16]) -> Body
    ensures value { result.items ≡ challenge_front res.now }
    ensures len { array_vec_len result ≡ 27 }
{
    let mut body = Body::new();
    put(&mut body, &[CHALLENGE, 0, 0, AT_RES, 5, 0, RES_BITS]);
    put(&mut body, res);
    put(&mut body, &[AT_MAC, 5, 0, 0]);
    body
}

fn challenge(identifier: u8, res: &[u8; 16], k_aut: &[u8; 32]) -> Body
    ensures { result.items ≡ challenge_body identifier res.now k_aut.now }
{
    let mut body = challenge_front(res);
    let header = [RESPONSE, identifier, 0, CHALLENGE_LEN, EAP_TYPE];
    let mac = mac_of(k_aut, &header, body.as_slice(), &[0; 16]);
    put(&mut body, &mac);
    body
}

impl Reply {
    // The body of the reply to the request with this identifier.
    pub(crate) fn body(&self, identifier: u8, suci: &Octets<255>) -> Body
        ensures { result.items ≡ body_of identifier (octets suci.now) (answer self.now) }
    {
        match self {
            Reply::ClientError => client_error(),
            Reply::AuthenticationReject => authentication_reject(),
            Reply::SynchronizationFailure { auts, kdfs } => synchronization_failure(auts, kdfs),
            Reply::Identity => identity(suci),
            Reply::Challenge { res, k_aut } => challenge(identifier, res, k_aut),
        }
    }
}
