// The elements of a message, which its reader goes through.
ghost use Rattle.std.specs.Prelude.{◌≡◌, ◌≤◌, IfErr, length};
ghost use Rattle.std.specs.Option.{option_map};
ghost use Rattle.nas.specs.Elements.{element, end_of, tagged};
ghost use Rattle.nas.specs.declared.fault.MessageFault.TheVariants.{InElement};
ghost use Rattle.nas.specs.Faults.{IsOwn};
ghost use Rattle.nas.specs.Messages.{elements_of, elements_start};
ghost use Rattle.nas.specs.Outcomes.{IfFound, IfRead, raised, seen, then};
ghost use Rattle.nas.specs.Reading.{unread};
ghost use Rattle.nas.specs.Walk.{first};

use crate::element::Element;
use crate::fault::{ElementFault, MessageFault};
use crate::message::read_mandatory;
use crate::reader::Reader;

// The reader of a message's elements.
pub type Elements<'a> = Reader<'a, Element<'a>>;

impl<'a> Elements<'a> {
    // The elements of a message, from where they start: after the ABBA of a request, after the EAP message of a result.
    #[tactic(auto, unfolding(crate::specs::Messages::elements_start))]
    pub fn of_message<F>(msg: &'a [u8]) -> Result<Elements<'a>, MessageFault<F>>
        ensures start { seen (λ e. e.at) result ≡ elements_start msg.now }
        ensures message { IfRead (λ e. e.bytes.now ≡ msg.now) result }
        ensures listed { then result (λ e. raised InElement (unread e)) ≡ elements_of msg.now }
        ensures own { IfErr result IsOwn }
    {
        let mandatory = read_mandatory(msg)?;
        Ok(Reader::of(msg, mandatory.end()))
    }

    // The first element with this tag, if every element still to come is whole.
    pub(crate) fn with_tag(&self, tag: u8) -> Result<Option<Element<'a>>, ElementFault>
        ensures value { seen (option_map element) result ≡ first (tagged tag) (unread self.now) }
        ensures inside { IfFound (λ e. end_of (element e) ≤ length self.now.bytes.now) result }
    {
        self.find(tag)
    }
}
