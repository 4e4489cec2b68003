// What a request asks, with the attributes that its subtype needs.
ghost use Rattle.std.specs.Prelude.{◌≡◌, ◌≤◌, length};
ghost use Rattle.attributes.specs.Requests.{kdf_list};

use crate::attribute::IdentityKind;
use crate::kdfs::Kdfs;
use nas::Part;

// The bytes of AT_RAND, AT_AUTN or AT_MAC, with the place of the attribute.
#[derive(Clone, Copy, Debug, PartialEq, Eq)]
pub struct Sixteen {
    pub at: u16,
    pub bytes: [u8; 16],
}

#[derive(Clone, Copy, Debug, PartialEq, Eq)]
pub struct IdentityRequest {
    pub at: u16,
    pub kind: IdentityKind,
}

#[derive(Clone, Copy, Debug, PartialEq, Eq)]
pub struct Challenge<'a> {
    pub rand: Sixteen,
    pub autn: Sixteen,
    pub mac: Sixteen,
    pub network: Part<'a>,
    pub kdfs: Kdfs,
}

#[derive(Clone, Copy, Debug, PartialEq, Eq)]
pub enum Request<'a> {
    Identity(IdentityRequest),
    Challenge(Challenge<'a>),
}

// The attributes found so far.
#[derive(Clone, Copy, Default)]
pub(crate) struct Found<'a> {
    pub(crate) rand: Option<Sixteen>,
    pub(crate) autn: Option<Sixteen>,
    pub(crate) mac: Option<Sixteen>,
    pub(crate) network: Option<Part<'a>>,
    pub(crate) kdfs: Option<Kdfs>,
    pub(crate) identity: Option<IdentityRequest>,
}

impl Kdfs {
    pub fn values(&self) -> &[u16]
        ensures value { result.now ≡ (kdf_list self.now).values }
        ensures few { length result.now ≤ 8 }
    {
        &self.values[..self.count]
    }
}
