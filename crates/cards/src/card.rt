// The interface of a subscriber's card. Its two ghost members say what a card means; what uses a card is proved against them, for all cards.
ghost use Rattle.std.specs.Prelude.{◌≡◌};
ghost use Rattle.cards.specs.Card.{CardDefinition};

use crate::kinds::CardOutcome;

pub trait Card {
    // What the card does, written down.
    ghost definition: { CardDefinition };

    // What it holds now.
    ghost holding: { Self → definition.Stage };

    // Asks the card to answer a challenge.
    fn ask(&mut self, rand: &[u8; 16], autn: &[u8; 16]) -> CardOutcome
        ensures { record { outcome = result; next = holding self.new } ≡ definition.answers (holding self.old) rand.now autn.now };
}
