// A worked case: the test card, with key and sequence number zero, is asked the same challenge twice.
ghost use Rattle.std.specs.Prelude.{◌≡◌};
ghost use Rattle.cards.specs.Cases.{asked_again, case_autn, case_rand, good_answer, stale_answer, zero_card};
ghost use Rattle.cards.specs.TestCards.{test_answers, test_holding};

use crate::card::Card;
use crate::kinds::{CardOutcome, TestCard};

const RAND: [u8; 16] = [0, 1, 2, 3, 4, 5, 6, 7, 8, 9, 10, 11, 12, 13, 14, 15];

// The sequence number 1 concealed by AK 03 04 05 06 07 08, the AMF 8000, and their MAC.
const AUTN: [u8; 16] = [3, 4, 5, 6, 7, 9, 0x80, 0, 0, 1, 2, 3, 4, 4, 0x86, 7];

#[derive(Clone, Copy)]
pub struct AskedTwice {
    pub first: CardOutcome,
    pub again: CardOutcome,
    // The card, with what it holds then.
    pub card: TestCard,
}

// Asks a new card the same challenge twice.
fn ask_twice(key: [u8; 16], sequence: [u8; 6], rand: &[u8; 16], autn: &[u8; 16]) -> AskedTwice
    ensures first { result.first ≡ (test_answers (record { key = key; sequence = sequence }) rand.now autn.now).outcome }
    ensures again { result.again ≡ (asked_again (record { key = key; sequence = sequence }) rand.now autn.now).outcome }
    ensures holds { test_holding result.card ≡ (asked_again (record { key = key; sequence = sequence }) rand.now autn.now).next }
{
    let mut card = TestCard::new(key, sequence);
    let first = card.ask(rand, autn);
    let again = card.ask(rand, autn);
    AskedTwice { first, again, card }
}

pub fn worked_cases() -> AskedTwice
    ensures good { test_answers zero_card case_rand case_autn ≡ good_answer }
    ensures stale { test_answers good_answer.next case_rand case_autn ≡ stale_answer }
    ensures first { result.first ≡ good_answer.outcome }
    ensures again { result.again ≡ stale_answer.outcome }
    ensures holds { test_holding result.card ≡ stale_answer.next }
{
    ask_twice([0; 16], [0; 6], &RAND, &AUTN)
}
