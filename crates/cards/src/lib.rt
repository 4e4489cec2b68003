// Cards: the interface of a subscriber's card with what it means, the recorded card and the test card.
#![tactic(auto)]

mod card;
mod cases;
mod kinds;
mod recorded;
mod same;
mod test_card;

pub use card::Card;
pub use cases::{AskedTwice, worked_cases};
pub use kinds::{CardOutcome, CardRow, RecordedCard, TestCard};
pub use same::same_bytes;
