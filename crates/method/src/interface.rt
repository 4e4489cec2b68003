// The interface of an EAP method. Its ghost members say what a method means; everything above it is proved against them.
ghost use Rattle.std.specs.Prelude.{◌≡◌};
ghost use Rattle.keys.specs.Octets.{octets};
ghost use Rattle.method.specs.Method.{Definition, Gives, Holding, emptied};
ghost use Rattle.method.specs.Subscribers.{subscriber};

use crate::subscription::Subscription;
use crate::weighing::Weighing;
use keys::Octets;
use nas::MethodFault;

pub trait Method {
    type Fault: MethodFault;

    // What the method does, written down.
    ghost definition: { Definition Self.Fault };

    // What it holds now.
    ghost holding: { Self → Holding definition.Stage };

    fn eap_type(&self) -> u8
        ensures { result ≡ definition.eap_type };

    // Processes a request packet, and writes the reply to the front of the buffer.
    fn process(
        &mut self,
        packet: &[u8],
        subscription: &Subscription,
        suci: &Octets<255>,
        reply: &mut [u8; 1500],
    ) -> Weighing<Self::Fault>
        ensures { Gives (definition.processes (holding self.old) packet.now (subscriber subscription.now) (octets suci.now)) result reply.old reply.new (holding self.new) };

    fn block(&self) -> Option<[u8; 128]>
        ensures { result ≡ (holding self.now).block };

    fn clear(&mut self)
        ensures { holding self.new ≡ emptied definition (holding self.old) };

    // What the definition says of the numbers and places of its faults is what the faults tell.
    ghost tells: { (f : Self.Fault) → (definition.number f ≡ Self.Fault.MethodFault.number f) × (definition.place f ≡ Self.Fault.MethodFault.place f) };
}
