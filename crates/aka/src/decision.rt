// What EAP-AKA' decides on a request that was read.
ghost use Rattle.std.specs.Prelude.{◌≡◌, ◌+◌, ◌≤◌, length};
ghost use Rattle.attributes.specs.Requests.{challenge_parts, kdf_list};
ghost use Rattle.keys.specs.Keys.{k_aut_of};
ghost use Rattle.method.specs.Subscribers.{subscriber};
ghost use Rattle.aka.specs.Aka.{decided, key_block, master_key_for, offered, on_identity, on_keys, on_outcome, prefers_aka_prime, unproven, untold};
ghost use Rattle.aka.specs.Replies.{answer, mac_with, zeroed_at};

use crate::fault::AkaFault;
use crate::reply::{Reply, mac_of};
use attributes::{Challenge, IdentityKind, IdentityRequest, Kdfs};
use cards::CardOutcome;
use keys::{AkaKeys, PrimeKeys};
use method::{Subscription, Verdict};

#[derive(Clone, Copy)]
pub(crate) struct Decision {
    pub(crate) verdict: Verdict<AkaFault>,
    pub(crate) reply: Reply,
    // The block that is held then.
    pub(crate) block: Option<[u8; 128]>,
}

// The key derivation function of EAP-AKA'.
const AKA_PRIME: u16 = 1;

// Where AMF stands in AUTN, and its highest bit.
const AMF_AT: usize = 6;

const SEPARATION_BIT: u8 = 0x80;

// Two reserved bytes and the MAC, behind type and length.
const MAC_HEADER: usize = 2;

const MAC_END: usize = 20;

impl Decision {
    pub(crate) fn unproven(fault: AkaFault, reply: Reply) -> Decision
        ensures { decided result ≡ unproven fault (answer reply) }
    {
        Decision {
            verdict: Verdict::Unproven(fault),
            reply,
            block: None,
        }
    }
}

// The identity is not told while a block is held, and the permanent one never is.
fn is_untold(held: Option<[u8; 128]>, kind: IdentityKind) -> bool
    ensures { result ≡ untold held kind }
{
    held.is_some() || matches!(kind, IdentityKind::Permanent)
}

pub(crate) fn on_identity(held: Option<[u8; 128]>, request: IdentityRequest) -> Decision
    ensures { decided result ≡ on_identity held request }
{
    if is_untold(held, request.kind) {
        let fault = AkaFault::IdentityRefused { at: request.at };
        return Decision::unproven(fault, Reply::ClientError);
    }
    Decision {
        verdict: Verdict::GoOn,
        reply: Reply::Identity,
        block: held,
    }
}

// Whether the first function that the network offers is the one of EAP-AKA'.
fn prefers_aka_prime(kdfs: &Kdfs) -> bool
    ensures { result ≡ prefers_aka_prime (kdf_list kdfs.now).values }
{
    match kdfs.values() {
        [first, ..] => *first == AKA_PRIME,
        [] => false,
    }
}

// What is used of a log-on's keys.
#[derive(Clone, Copy)]
struct SessionKeys {
    k_aut: [u8; 32],
    block: [u8; 128],
}

fn session_keys(
    subscription: &Subscription,
    autn: &[u8; 16],
    ck: &[u8; 16],
    ik: &[u8; 16],
) -> SessionKeys
    ensures k_aut { result.k_aut ≡ k_aut_of (master_key_for (subscriber subscription.now) autn.now ck.now ik.now) }
    ensures block { result.block ≡ key_block (master_key_for (subscriber subscription.now) autn.now ck.now ik.now) }
{
    let prime = PrimeKeys::derive(ck, ik, &subscription.network, autn);
    let keys = AkaKeys::derive(&prime, subscription.supi.as_slice());
    SessionKeys {
        k_aut: keys.k_aut,
        block: keys.key_block(),
    }
}

// A challenge with the packet that it stands in, and the subscription that it is for.
#[derive(Clone, Copy)]
pub(crate) struct Challenged<'a> {
    pub(crate) packet: &'a [u8],
    pub(crate) subscription: &'a Subscription,
    pub(crate) challenge: Challenge<'a>,
    ghost inside: { challenge.mac.at + 20 ≤ length packet.now },
}

impl Challenged<'_> {
    // What is asked before the card is.
    pub(crate) fn check_offer(&self) -> Result<(), AkaFault>
        ensures { result ≡ offered (subscriber self.now.subscription.now) (challenge_parts self.now.challenge) }
    {
        let challenge = &self.challenge;
        if !prefers_aka_prime(&challenge.kdfs) {
            return Err(AkaFault::WrongKdf {
                at: challenge.kdfs.at,
            });
        }
        if challenge.network.bytes != self.subscription.network.as_slice() {
            return Err(AkaFault::WrongNetwork {
                at: challenge.network.at,
            });
        }
        Ok(())
    }

    // The MAC over the packet with the whole value of AT_MAC zeroed.
    fn expected_mac(&self, k_aut: &[u8; 32]) -> [u8; 16]
        ensures { result ≡ mac_with k_aut.now (zeroed_at self.now.packet.now self.now.challenge.mac.at) }
    {
        let at = usize::from(self.challenge.mac.at);
        let before = &self.packet[..at + MAC_HEADER];
        let behind = &self.packet[at + MAC_END..];
        mac_of(k_aut, before, &[0; 18], behind)
    }

    // Whether AT_MAC is right, once the card has given the keys.
    fn on_keys(&self, res: [u8; 16], keys: &SessionKeys) -> Decision
        ensures { decided result ≡ on_keys self.now.packet.now (challenge_parts self.now.challenge) res keys.now.k_aut keys.now.block }
    {
        let mac = &self.challenge.mac;
        if mac.bytes != self.expected_mac(&keys.k_aut) {
            let fault = AkaFault::WrongMac { at: mac.at };
            return Decision::unproven(fault, Reply::ClientError);
        }
        Decision {
            verdict: Verdict::Granted,
            reply: Reply::Challenge {
                res,
                k_aut: keys.k_aut,
            },
            block: Some(keys.block),
        }
    }

    // What is decided once the card has answered.
    pub(crate) fn on_outcome(&self, outcome: CardOutcome) -> Decision
        ensures { decided result ≡ on_outcome self.now.packet.now (subscriber self.now.subscription.now) (challenge_parts self.now.challenge) outcome }
    {
        let autn = &self.challenge.autn;
        let at = autn.at;
        match outcome {
            CardOutcome::Out => Decision::unproven(AkaFault::NoCard, Reply::ClientError),
            _ if autn.bytes[AMF_AT] < SEPARATION_BIT => {
                Decision::unproven(AkaFault::NotSeparated { at }, Reply::AuthenticationReject)
            }
            CardOutcome::Wrong => {
                Decision::unproven(AkaFault::WrongAutn { at }, Reply::AuthenticationReject)
            }
            CardOutcome::Stale { auts } => {
                let kdfs = self.challenge.kdfs;
                let reply = Reply::SynchronizationFailure { auts, kdfs };
                Decision::unproven(AkaFault::StaleSequence { at }, reply)
            }
            CardOutcome::Good { res, ck, ik } => {
                let keys = session_keys(self.subscription, &autn.bytes, &ck, &ik);
                self.on_keys(res, &keys)
            }
        }
    }
}
