// EAP-AKA' as a method, written once, over every card.
ghost use Rattle.std.specs.Prelude.{◌≡◌, length, None, refl};
ghost use Rattle.keys.specs.Octets.{octets};
ghost use Rattle.nas.specs.Replies.{response_packet};
ghost use Rattle.method.specs.Method.{replied};
ghost use Rattle.method.specs.Subscribers.{subscriber};
ghost use Rattle.aka.specs.Aka.{decided, judged};
ghost use Rattle.aka.specs.AkaMethod.{aka_definition, aka_holding, judged_of};
ghost use Rattle.aka.specs.Replies.{answer, body_of};

use crate::decision::{Challenged, Decision, on_identity};
use crate::fault::AkaFault;
use crate::reply::{EAP_TYPE, Reply};
use attributes::{Request, read_request};
use cards::Card;
use keys::Octets;
use method::{Method, Subscription, Weighing, identifier_of};
use nas::write_response;

// A card, and the block that the last granted challenge left.
#[derive(Clone, Copy)]
pub struct AkaPrime<C> {
    card: C,
    block: Option<[u8; 128]>,
}

impl<C: Card> AkaPrime<C> {
    // The method with this card, which holds no block.
    pub fn new(card: C) -> AkaPrime<C>
        ensures card { result.card ≡ card }
        ensures block { result.block ≡ None }
    {
        AkaPrime { card, block: None }
    }

    // Asks the card, if what the network offers is right.
    fn on_challenge(&mut self, asked: &Challenged<'_>) -> Decision
        ensures { record { decision = decided result; stage = C.Card.holding self.new.card } ≡ judged_of C.Card.definition (aka_holding C.Card.holding self.old) asked.now }
    {
        match asked.check_offer() {
            Ok(()) => {
                let challenge = &asked.challenge;
                let outcome = self.card.ask(&challenge.rand.bytes, &challenge.autn.bytes);
                asked.on_outcome(outcome)
            }
            Err(fault) => Decision::unproven(fault, Reply::AuthenticationReject),
        }
    }

    fn decide(&mut self, packet: &[u8], subscription: &Subscription) -> Decision
        ensures { record { decision = decided result; stage = C.Card.holding self.new.card } ≡ judged C.Card.definition (aka_holding C.Card.holding self.old) packet.now (subscriber subscription.now) }
    {
        match read_request(packet) {
            Ok(Request::Identity(request)) => on_identity(self.block, request),
            Ok(Request::Challenge(challenge)) => {
                let asked = Challenged {
                    packet,
                    subscription,
                    challenge,
                };
                self.on_challenge(&asked)
            }
            Err(fault) => Decision::unproven(AkaFault::from(fault), Reply::ClientError),
        }
    }

    // Decides on a request, and holds the block that the decision leaves.
    fn settle(&mut self, packet: &[u8], subscription: &Subscription) -> Decision
        ensures judged { record { decision = decided result; stage = C.Card.holding self.new.card } ≡ judged C.Card.definition (aka_holding C.Card.holding self.old) packet.now (subscriber subscription.now) }
        ensures block { self.new.block ≡ result.block }
    {
        let decision = self.decide(packet, subscription);
        self.block = decision.block;
        decision
    }
}

// Writes the reply to the front of the buffer, and tells its length. The scripted method has its own: one for both would have to
// ask that the body fits.
fn write_reply(reply: &Reply, identifier: u8, suci: &Octets<255>, out: &mut [u8; 1500]) -> usize
    ensures len { result ≡ length (response_packet identifier 50 (body_of identifier (octets suci.now) (answer reply.now))) }
    ensures bytes { out.new ≡ replied (response_packet identifier 50 (body_of identifier (octets suci.now) (answer reply.now))) out.old }
{
    let body = reply.body(identifier, suci);
    write_response(identifier, EAP_TYPE, body.as_slice(), out).unwrap()
}

impl<C: Card> Method for AkaPrime<C> {
    type Fault = AkaFault;

    ghost definition = { aka_definition C.Card.definition };

    ghost holding = { aka_holding C.Card.holding };

    fn eap_type(&self) -> u8 {
        EAP_TYPE
    }

    fn process(
        &mut self,
        packet: &[u8],
        subscription: &Subscription,
        suci: &Octets<255>,
        reply: &mut [u8; 1500],
    ) -> Weighing<AkaFault> {
        let decision = self.settle(packet, subscription);
        let identifier = identifier_of(packet);
        let reply_len = write_reply(&decision.reply, identifier, suci, reply);
        Weighing {
            verdict: decision.verdict,
            reply_len,
        }
    }

    fn block(&self) -> Option<[u8; 128]> {
        self.block
    }

    fn clear(&mut self) {
        self.block = None;
    }

    ghost tells = { λ _. (refl, refl) };
}
