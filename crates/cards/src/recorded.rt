// The recorded card: the first row for the challenge decides.
ghost use Rattle.std.specs.Prelude.{◌≡◌};
ghost use Rattle.cards.specs.Recorded.{first_for, is_for, recorded_definition, recorded_holding};

use crate::card::Card;
use crate::kinds::{CardOutcome, CardRow, RecordedCard};

fn is_for(row: &CardRow, rand: &[u8; 16], autn: &[u8; 16]) -> bool
    ensures { result ≡ is_for row.now rand.now autn.now }
{
    row.rand == *rand && row.autn == *autn
}

fn first_for(rows: &[CardRow], rand: &[u8; 16], autn: &[u8; 16]) -> CardOutcome
    ensures { result ≡ first_for rows.now rand.now autn.now }
{
    rows.iter()
        .find(|row| is_for(row, rand, autn))
        .map(|row| row.outcome)
        .unwrap_or(CardOutcome::Wrong)
}

impl<'a> RecordedCard<'a> {
    // A card that says what these rows say.
    pub fn new(rows: &'a [CardRow]) -> RecordedCard<'a>
        ensures { recorded_holding result ≡ rows.now }
    {
        RecordedCard { rows }
    }
}

impl<'a> Card for RecordedCard<'a> {
    ghost definition = { recorded_definition };

    ghost holding = { recorded_holding };

    fn ask(&mut self, rand: &[u8; 16], autn: &[u8; 16]) -> CardOutcome {
        if self.rows.is_empty() {
            return CardOutcome::Out;
        }
        first_for(self.rows, rand, autn)
    }
}
