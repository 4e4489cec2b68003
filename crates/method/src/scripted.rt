// The scripted method: the first row with the packet's identifier decides, and the reply has an empty body.
ghost use Rattle.std.specs.Prelude.{◌≡◌, ℕ, [], ◌++◌, length, None, slice_index, refl};
ghost use Rattle.nas.specs.Replies.{response_packet};
ghost use Rattle.method.specs.Method.{replied};
ghost use Rattle.method.specs.Scripted.{decided, first_row, granted_from, number_of};
ghost use Rattle.method.specs.ScriptedMethod.{scripted_definition, scripted_holding};

use crate::interface::Method;
use crate::row::{Outcome, Row, Scripted, ScriptedFault};
use crate::subscription::Subscription;
use crate::weighing::{Verdict, Weighing};
use keys::Octets;
use nas::{MethodFault, write_response};

const EAP_TYPE: u8 = 253;

impl MethodFault for ScriptedFault {
    ghost number = { number_of };

    ghost place = { λ _. 0 };

    fn number(&self) -> u8 {
        match self {
            ScriptedFault::NoRow => 33,
            ScriptedFault::OutsideStore => 34,
        }
    }

    fn place(&self) -> u16 {
        0
    }
}

fn first_row(rows: &[Row], identifier: u8) -> Option<Outcome>
    ensures { result ≡ first_row rows.now identifier }
{
    rows.iter()
        .find(|row| row.identifier == identifier)
        .map(|row| row.outcome)
}

// The bytes of the store from this place on, if a whole block lies there: MSK and EMSK.
fn block_at(store: &[u8], at: usize) -> Option<[u8; 128]>
    ensures { result ≡ (granted_from store.now at).block }
{
    store.get(at..)?.first_chunk().copied()
}

impl<'a> Scripted<'a> {
    // A method with these rows, which holds no block.
    pub fn new(rows: &'a [Row], store: &'a [u8]) -> Scripted<'a>
        ensures block { result.block ≡ None }
        ensures rows { result.rows.now ≡ rows.now }
        ensures store { result.store.now ≡ store.now }
    {
        Scripted {
            rows,
            store,
            block: None,
        }
    }

    fn forget(&mut self)
        ensures { scripted_holding self.new ≡ record { block = None; stage = (scripted_holding self.old).stage } }
    {
        self.block = None;
    }

    // Takes the outcome of a row, or of none, and tells the verdict.
    fn decide(&mut self, outcome: Option<Outcome>) -> Verdict<ScriptedFault>
        ensures verdict { result ≡ (decided outcome (scripted_holding self.old).stage self.old.block).verdict }
        ensures holds { scripted_holding self.new ≡ record { block = (decided outcome (scripted_holding self.old).stage self.old.block).block; stage = (scripted_holding self.old).stage } }
    {
        match outcome {
            Some(Outcome::GoOn) => Verdict::GoOn,
            Some(Outcome::Grant { at }) => {
                self.block = block_at(self.store, at);
                match self.block {
                    Some(_) => Verdict::Granted,
                    None => Verdict::Unproven(ScriptedFault::OutsideStore),
                }
            }
            Some(Outcome::Refuse) | None => {
                self.forget();
                Verdict::Unproven(ScriptedFault::NoRow)
            }
        }
    }
}

// Writes a reply without a body, and tells its length. Stays beside that of aka: one public function for both would have to ask
// its callers for a body that fits.
fn write_reply(identifier: u8, reply: &mut [u8; 1500]) -> usize
    ensures len { result ≡ length (response_packet identifier 253 []) }
    ensures bytes { reply.new ≡ replied (response_packet identifier 253 []) reply.old }
{
    write_response(identifier, EAP_TYPE, &[], reply).unwrap()
}

// The identifier of a packet; of bytes too few to have one it is 0, since processing is defined for any bytes.
pub fn identifier_of(packet: &[u8]) -> u8
    ensures { result ≡ slice_index packet.now 1 }
{
    packet.get(1).copied().unwrap_or(0)
}

impl<'a> Method for Scripted<'a> {
    type Fault = ScriptedFault;

    ghost definition = { scripted_definition };

    ghost holding = { scripted_holding };

    fn eap_type(&self) -> u8 {
        EAP_TYPE
    }

    fn process(
        &mut self,
        packet: &[u8],
        _subscription: &Subscription,
        _suci: &Octets<255>,
        reply: &mut [u8; 1500],
    ) -> Weighing<ScriptedFault> {
        let identifier = identifier_of(packet);
        let reply_len = write_reply(identifier, reply);
        let outcome = first_row(self.rows, identifier);
        let verdict = self.decide(outcome);
        Weighing { verdict, reply_len }
    }

    fn block(&self) -> Option<[u8; 128]> {
        self.block
    }

    fn clear(&mut self) {
        self.forget();
    }

    ghost tells = { λ _. (refl, refl) };
}
