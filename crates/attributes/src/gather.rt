// Reads a request: one pass asks whether all attributes are whole and of the subtype, another settles their lengths and their
// number; then each needed one is taken.
ghost use Rattle.std.specs.Prelude.{◌≡◌, IsOk, ◌≤◌, length};
ghost use Rattle.std.specs.Option.{option_map};
ghost use Rattle.nas.specs.Outcomes.{IfRead, seen, then};
ghost use Rattle.nas.specs.Parts.{field};
ghost use Rattle.attributes.specs.Attributes.{attribute as attr};
ghost use Rattle.attributes.specs.Inside.{Inside};
ghost use Rattle.attributes.specs.Reading.{unread};
ghost use Rattle.attributes.specs.Requests.{added, added_all, asked, challenge_parts, exactly, gathered, gathered_from, identity_of, kdf_list, kdf_of, needed_for, needed_for_challenge, network_of, nothing, at_most_once, with_one_more, read_request, sixteen_of};

use crate::attribute::{Attribute, IdentityKind, Subtype};
use crate::fault::{AttributeFault, RequestFault};
use crate::kdfs::{Kdfs, MOST_KDFS};
use crate::request::{Challenge, Found, IdentityRequest, Request, Sixteen};
use nas::{Part, Reader};

// Code, identifier, length and EAP type stand before it.
const SUBTYPE_AT: usize = 5;

// Header, subtype and two reserved bytes.
const ATTRIBUTES_AT: usize = 8;

// The reader of a request's attributes.
type Attributes<'a> = Reader<'a, Attribute<'a>>;

// The value, if it has just as many bytes.
fn exactly<const N: usize>(at: u16, value: &[u8]) -> Result<[u8; N], AttributeFault>
    ensures { result ≡ exactly N at value.now }
{
    <[u8; N]>::try_from(value).map_err(|_| AttributeFault::WrongLength { at })
}

// Two reserved bytes stand before the sixteen.
fn sixteen(part: Part<'_>) -> Result<Sixteen, AttributeFault>
    ensures { result ≡ sixteen_of (field part.entry) }
{
    let [_, _, value @ ..] = part.bytes else {
        return Err(AttributeFault::WrongLength { at: part.at });
    };
    let bytes = exactly(part.at, value)?;
    Ok(Sixteen { at: part.at, bytes })
}

fn network<'a>(part: Part<'a>) -> Result<Part<'a>, AttributeFault>
    ensures { seen field result ≡ network_of (field part.entry) }
{
    let wrong = AttributeFault::WrongLength { at: part.at };
    let [high, low, name @ ..] = part.bytes else {
        return Err(wrong);
    };
    let len = usize::from(u16::from_be_bytes([*high, *low]));
    if name.len() > len + 3 {
        return Err(wrong);
    }
    let bytes = name.get(..len).ok_or(wrong)?;
    Ok(Part { at: part.at, bytes })
}

fn kdf(part: Part<'_>) -> Result<u16, AttributeFault>
    ensures { result ≡ kdf_of (field part.entry) }
{
    Ok(u16::from_be_bytes(exactly(part.at, part.bytes)?))
}

fn identity_request(kind: IdentityKind, part: Part<'_>) -> Result<IdentityRequest, AttributeFault>
    ensures { result ≡ identity_of kind (field part.entry) }
{
    exactly::<2>(part.at, part.bytes)?;
    Ok(IdentityRequest { at: part.at, kind })
}

// The value, if none was held before it.
fn once<T: Copy>(held: Option<T>, at: u16, value: T) -> Result<Option<T>, AttributeFault>
    ensures { result ≡ at_most_once held at value }
{
    match held {
        None => Ok(Some(value)),
        Some(_) => Err(AttributeFault::Surplus { at }),
    }
}

// The values so far and one more, if there may be one more.
fn one_more(held: Option<Kdfs>, at: u16, value: u16) -> Result<Option<Kdfs>, AttributeFault>
    ensures { seen (option_map kdf_list) result ≡ with_one_more (option_map kdf_list held) at value }
{
    let Some(mut kdfs) = held else {
        let mut values = [0; 8];
        values[0] = value;
        return Ok(Some(Kdfs {
            at,
            values,
            count: 1,
        }));
    };
    if kdfs.count >= MOST_KDFS {
        return Err(AttributeFault::Surplus { at });
    }
    kdfs.values[kdfs.count] = value;
    kdfs.count += 1;
    Ok(Some(kdfs))
}

impl<'a> Found<'a> {
    // With one attribute more, if it has its right length and may stand once more.
    fn take(&mut self, attribute: Attribute<'a>) -> Result<(), AttributeFault>
        ensures { seen (λ _. gathered self.new) result ≡ added (gathered self.old) (attr attribute.entry) }
    {
        match attribute {
            Attribute::Rand(part) => self.rand = once(self.rand, part.at, sixteen(part)?)?,
            Attribute::Autn(part) => self.autn = once(self.autn, part.at, sixteen(part)?)?,
            Attribute::Mac(part) => self.mac = once(self.mac, part.at, sixteen(part)?)?,
            Attribute::KdfInput(part) => {
                self.network = once(self.network, part.at, network(part)?)?;
            }
            Attribute::Kdf(part) => self.kdfs = one_more(self.kdfs, part.at, kdf(part)?)?,
            Attribute::IdentityRequest(kind, part) => {
                self.identity = once(self.identity, part.at, identity_request(kind, part)?)?;
            }
            Attribute::Skippable(_) | Attribute::Other(_) => {}
        }
        Ok(())
    }
}

// The attributes still to come, which are whole, if each is of its right length and stands no oftener than it may.
fn gather<'a>(mut attributes: Attributes<'a>) -> Result<Found<'a>, AttributeFault>
    requires { IsOk (unread attributes) }
    ensures { seen gathered result ≡ then (unread attributes.entry) (λ l. added_all nothing l) }
{
    let mut found = Found::default();
    while let Some(attribute) = attributes.next()? {
        found.take(attribute)?;
    }
    Ok(found)
}

fn gather_of<'a>(subtype: Subtype, attributes: Attributes<'a>) -> Result<Found<'a>, AttributeFault>
    ensures { seen gathered result ≡ gathered_from subtype (unread attributes.entry) }
{
    if let Some(foreign) = attributes.find(subtype)? {
        let part = foreign.part();
        return Err(AttributeFault::Foreign { at: part.at });
    }
    gather(attributes)
}

// Each by a `let .. else` of its own, in the order in which they are asked for.
fn needed_for_challenge<'a>(found: Found<'a>) -> Result<Challenge<'a>, RequestFault>
    ensures { seen challenge_parts result ≡ needed_for_challenge (gathered found.entry) }
{
    let Some(rand) = found.rand else {
        return Err(RequestFault::Missing);
    };
    let Some(autn) = found.autn else {
        return Err(RequestFault::Missing);
    };
    let Some(mac) = found.mac else {
        return Err(RequestFault::Missing);
    };
    let Some(network) = found.network else {
        return Err(RequestFault::Missing);
    };
    let Some(kdfs) = found.kdfs else {
        return Err(RequestFault::Missing);
    };
    Ok(Challenge {
        rand,
        autn,
        mac,
        network,
        kdfs,
    })
}

fn needed_for<'a>(subtype: Subtype, found: Found<'a>) -> Result<Request<'a>, RequestFault>
    ensures { seen asked result ≡ needed_for subtype (gathered found.entry) }
{
    match subtype {
        Subtype::Identity => {
            let Some(identity) = found.identity else {
                return Err(RequestFault::Missing);
            };
            Ok(Request::Identity(identity))
        }
        Subtype::Challenge => Ok(Request::Challenge(needed_for_challenge(found)?)),
    }
}

// Reads a whole request, or says which question it fails first, and where.
#[tactic(auto, using(crate::proofs::Lies::read_inside), unfolding(crate::specs::Requests::read_request))]
pub fn read_request<'a>(packet: &'a [u8]) -> Result<Request<'a>, RequestFault>
    ensures value { seen asked result ≡ read_request packet.now }
    ensures inside { IfRead (Inside (length packet.now)) (seen asked result) }
{
    if packet.len() < ATTRIBUTES_AT {
        return Err(RequestFault::WrongSubtype);
    }
    let Some(attributes) = Reader::new(packet, ATTRIBUTES_AT) else {
        return Err(RequestFault::WrongSubtype);
    };
    let subtype = Subtype::try_from(packet[SUBTYPE_AT])?;
    let found = gather_of(subtype, attributes)?;
    needed_for(subtype, found)
}
