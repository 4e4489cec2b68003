// The commands that start a method, add rows to it and use it.
use crate::names::{CardKind, CardWord, CommandName, MethodCommand, MethodWord, ValueName};
use crate::refusal::{Refusal, ValueFault};
use crate::values::{Form, Values, bounded, too_long};
use crate::words::Words;
use cards::{CardOutcome, CardRow, TestCard};
use keys::Octets;
use method::{Outcome, Row, Subscription};

const CARD: Form = Form {
    command: CommandName::Method(MethodCommand::Card),
    fields: &[ValueName::Key, ValueName::Sequence],
    plain: Some(ValueName::Kind),
};

const SCRIPTED: Form = Form {
    command: CommandName::Method(MethodCommand::Scripted),
    fields: &[ValueName::Store],
    plain: None,
};

const CARD_ROW: Form = Form {
    command: CommandName::Method(MethodCommand::Row),
    fields: &[
        ValueName::Rand,
        ValueName::Autn,
        ValueName::Outcome,
        ValueName::Auts,
        ValueName::Res,
        ValueName::Ck,
        ValueName::Ik,
    ],
    plain: None,
};

const METHOD_ROW: Form = Form {
    command: CommandName::Method(MethodCommand::Row),
    fields: &[ValueName::Identifier, ValueName::Outcome, ValueName::At],
    plain: None,
};

const PROCESS: Form = Form {
    command: CommandName::Method(MethodCommand::Process),
    fields: &[ValueName::Snn, ValueName::Supi, ValueName::Suci],
    plain: Some(ValueName::Packet),
};

// What a row of a recorded card holds beside its outcome.
const CARD_VALUES: &[ValueName] = &[
    ValueName::Auts,
    ValueName::Res,
    ValueName::Ck,
    ValueName::Ik,
];

// The largest sequence number, of 48 bits.
const LARGEST_SEQUENCE: u64 = (1 << 48) - 1;

// The most bytes of a store, and the largest place in one.
const LONGEST_STORE: usize = 65535;

// Which method is started.
#[derive(Drop)]
pub enum Start {
    // EAP-AKA' with a test card.
    TestCard(TestCard),
    // EAP-AKA' with a recorded card that has no rows yet.
    RecordedCard,
    // The scripted method with this store and no rows yet.
    Scripted(Vec<u8>),
}

// A packet for the method, with what it is processed with.
#[derive(Drop)]
pub struct Request {
    pub subscription: Subscription,
    pub suci: Octets<255>,
    pub packet: Vec<u8>,
}

// What is done with the method; none takes rows after it.
#[derive(Drop)]
pub enum Use {
    Process(Request),
    Clear,
    Block,
}

// The six bytes of a sequence number, the highest first.
fn sequence_of(number: u64) -> [u8; 6] {
    *number.to_be_bytes()[2..].first_chunk().unwrap()
}

pub(crate) fn card(words: Words<'_>) -> Result<Start, Refusal> {
    let values = Values::read(&CARD, words)?;
    match values.choice(ValueName::Kind)? {
        CardKind::Test => Ok(Start::TestCard(test_card(&values)?)),
        CardKind::Recorded => {
            values.without(&[ValueName::Key, ValueName::Sequence], CardKind::Recorded)?;
            Ok(Start::RecordedCard)
        }
    }
}

fn test_card(values: &Values<'_>) -> Result<TestCard, Refusal> {
    let key = values.array(ValueName::Key)?;
    let sequence = values.number(ValueName::Sequence, LARGEST_SEQUENCE)?;
    Ok(TestCard::new(key, sequence_of(sequence)))
}

pub(crate) fn scripted(words: Words<'_>) -> Result<Start, Refusal> {
    let store = Values::read(&SCRIPTED, words)?.bytes(ValueName::Store)?;
    if store.len() > LONGEST_STORE {
        return Err(too_long(ValueName::Store, store.len(), LONGEST_STORE));
    }
    Ok(Start::Scripted(store))
}

pub(crate) fn card_row(words: Words<'_>) -> Result<CardRow, Refusal> {
    let values = Values::read(&CARD_ROW, words)?;
    Ok(CardRow {
        rand: values.array(ValueName::Rand)?,
        autn: values.array(ValueName::Autn)?,
        outcome: card_outcome(&values)?,
    })
}

fn card_outcome(values: &Values<'_>) -> Result<CardOutcome, Refusal> {
    let word = values.choice(ValueName::Outcome)?;
    match word {
        CardWord::Out => {
            values.without(CARD_VALUES, word)?;
            Ok(CardOutcome::Out)
        }
        CardWord::Wrong => {
            values.without(CARD_VALUES, word)?;
            Ok(CardOutcome::Wrong)
        }
        CardWord::Stale => {
            let auts = values.array(ValueName::Auts)?;
            values.without(&[ValueName::Res, ValueName::Ck, ValueName::Ik], word)?;
            Ok(CardOutcome::Stale { auts })
        }
        CardWord::Good => {
            values.without(&[ValueName::Auts], word)?;
            Ok(CardOutcome::Good {
                res: values.array(ValueName::Res)?,
                ck: values.array(ValueName::Ck)?,
                ik: values.array(ValueName::Ik)?,
            })
        }
    }
}

pub(crate) fn method_row(words: Words<'_>) -> Result<Row, Refusal> {
    let values = Values::read(&METHOD_ROW, words)?;
    Ok(Row {
        identifier: values.number(ValueName::Identifier, 255)? as u8,
        outcome: method_outcome(&values)?,
    })
}

fn method_outcome(values: &Values<'_>) -> Result<Outcome, Refusal> {
    let word = values.choice(ValueName::Outcome)?;
    match word {
        MethodWord::GoOn => {
            values.without(&[ValueName::At], word)?;
            Ok(Outcome::GoOn)
        }
        MethodWord::Granted => {
            let at = values.number(ValueName::At, LONGEST_STORE as u64)? as usize;
            Ok(Outcome::Grant { at })
        }
        MethodWord::Refuse => {
            values.without(&[ValueName::At], word)?;
            Ok(Outcome::Refuse)
        }
    }
}

pub(crate) fn process(words: Words<'_>) -> Result<Use, Refusal> {
    let values = Values::read(&PROCESS, words)?;
    Ok(Use::Process(Request {
        subscription: subscription_of(&values)?,
        suci: suci_of(&values)?,
        packet: values.plain_bytes(ValueName::Packet)?,
    }))
}

// A method asks for nothing but the two names: the most that a counter reaches is of no account.
fn subscription_of(values: &Values<'_>) -> Result<Subscription, Refusal> {
    let network = bounded(ValueName::Snn, values.text(ValueName::Snn)?)?;
    let supi = bounded(ValueName::Supi, values.text(ValueName::Supi)?)?;
    Ok(Subscription {
        supi,
        network,
        most: 1,
    })
}

fn suci_of(values: &Values<'_>) -> Result<Octets<255>, Refusal> {
    let text = values.text(ValueName::Suci)?;
    if text.is_empty() {
        return Err(ValueFault::NoBytes.of(ValueName::Suci));
    }
    bounded(ValueName::Suci, text)
}

// A use that takes no values.
pub(crate) fn bare(command: MethodCommand, words: Words<'_>, what: Use) -> Result<Use, Refusal> {
    let form = Form {
        command: CommandName::Method(command),
        fields: &[],
        plain: None,
    };
    Values::read(&form, words)?;
    Ok(what)
}
