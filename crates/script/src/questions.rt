// The commands that need no method.
ghost use Rattle.std.specs.Prelude.{◌≡◌, ◌≤◌, true, IfOk};
ghost use Rattle.script.specs.Questions.{needs_no_method};

use crate::names::{CommandName, Question, ValueName};
use crate::refusal::Refusal;
use crate::values::{Form, Values, too_long};
use crate::words::Words;
use answers::{Answer, Help, LogOnKeys};
use digest::{Hmac, Sha256};
use keys::{AkaKeys, KeyChain, Octets, PrimeKeys, kausf};
use nas::network_kind;

// What the keys of a log-on are derived from.
const DERIVED_FROM: &[ValueName] = &[
    ValueName::Ck,
    ValueName::Ik,
    ValueName::Autn,
    ValueName::Snn,
    ValueName::Supi,
    ValueName::Abba,
];

// The most bytes of a parameter of a key derivation.
const LONGEST: usize = 65535;

// What is enough for the parameters of nearly every log-on.
const SHORT: usize = 255;

const PARAMETERS: &[ValueName] = &[ValueName::Snn, ValueName::Supi, ValueName::Abba];

impl Question {
    fn form(self) -> Form {
        let (fields, plain): (&'static [ValueName], Option<ValueName>) = match self {
            Question::Sha256 | Question::Decode => (&[], Some(ValueName::Message)),
            Question::Hmac => (&[ValueName::Key], Some(ValueName::Message)),
            Question::Derive => (DERIVED_FROM, None),
            Question::Snn => (&[], Some(ValueName::Name)),
            Question::Help => (&[], None),
        };
        Form {
            command: CommandName::Question(self),
            fields,
            plain,
        }
    }

    // The answer, from the words after the command.
    pub(crate) fn answer(self, help: Help, words: Words<'_>) -> Result<Answer<'static>, Refusal>
        ensures { IfOk result (λ a. needs_no_method a ≡ true) }
    {
        let mut values = Values::nothing(words.heap);
        values.take_all(&self.form(), words)?;
        Ok(match self {
            Question::Sha256 => Answer::Digest(sha256(&values)?),
            Question::Hmac => Answer::Mac(hmac(&values)?),
            Question::Derive => Answer::Keys(derive(&values)?),
            Question::Snn => Answer::Network(network_kind(values.text(ValueName::Name)?)),
            Question::Decode => Answer::Message(values.plain_bytes(ValueName::Message)?),
            Question::Help => Answer::Help(help),
        })
    }
}

fn sha256(values: &Values<'_>) -> Result<[u8; 32], Refusal> {
    let message = values.plain_bytes(ValueName::Message)?;
    let mut hash = Sha256::new();
    hash.update(message.as_slice());
    Ok(hash.finish())
}

fn hmac(values: &Values<'_>) -> Result<[u8; 32], Refusal> {
    let key = values.bytes(ValueName::Key)?;
    let message = values.plain_bytes(ValueName::Message)?;
    let mut mac = Hmac::new(key.as_slice());
    mac.update(message.as_slice());
    Ok(mac.finish())
}

// The keys of a log-on whose parameters have at most N bytes each. Not inlined: its arrays would stand in the frame of every line.
#[inline(never)]
fn derive_within<const N: usize>(values: &Values<'_>) -> Result<LogOnKeys, Refusal>
    requires { N ≤ 65535 }
{
    let ck = values.array(ValueName::Ck)?;
    let ik = values.array(ValueName::Ik)?;
    let autn = values.array(ValueName::Autn)?;
    let snn = values.text(ValueName::Snn)?;
    let network = Octets::<N>::new(snn);
    let network = network
        .as_ref()
        .ok_or(too_long(ValueName::Snn, snn.len(), N))?;
    let identity = values.text(ValueName::Supi)?;
    let supi = Octets::<N>::new(identity);
    let supi = supi
        .as_ref()
        .ok_or(too_long(ValueName::Supi, identity.len(), N))?;
    let bytes = values.bytes(ValueName::Abba)?;
    let abba = Octets::<N>::new(bytes.as_slice());
    let abba = abba
        .as_ref()
        .ok_or(too_long(ValueName::Abba, bytes.len(), N))?;
    let prime = PrimeKeys::derive(&ck, &ik, network, &autn);
    let aka = AkaKeys::derive(&prime, identity);
    let chain = KeyChain::from_kausf(&kausf(&aka.emsk), network, supi, abba);
    Ok(LogOnKeys { prime, aka, chain })
}

// The parameters of a log-on are short; only where one is not the arrays have room for the longest.
fn derive(values: &Values<'_>) -> Result<LogOnKeys, Refusal> {
    if values.are_within(SHORT, PARAMETERS) {
        derive_within::<SHORT>(values)
    } else {
        derive_within::<LONGEST>(values)
    }
}
