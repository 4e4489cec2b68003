// The names of commands and values, and the words that a value can be, as scripts and answers write them.
use std::fmt;
use std::fmt::Display;

// What scripts and answers name by a word.
pub(crate) trait Named: Copy + 'static {
    fn text(self) -> &'static str;

    // Which of these the word names.
    fn among(all: &[Self], word: &[u8]) -> Option<Self> {
        all.iter()
            .copied()
            .find(|name| name.text().as_bytes() == word)
    }
}

// What a word can name anywhere.
pub(crate) trait Listed: Named {
    const ALL: &'static [Self];

    fn of(word: &[u8]) -> Option<Self> {
        Self::among(Self::ALL, word)
    }
}

#[derive(Clone, Copy, Debug)]
pub enum CommandName {
    Question(Question),
    Method(MethodCommand),
}

// A command that needs no method.
#[derive(Clone, Copy, Debug)]
pub enum Question {
    Sha256,
    Hmac,
    Derive,
    Snn,
    Decode,
    Help,
}

// A command that starts a method, adds a row to it or uses it.
#[derive(Clone, Copy, Debug)]
pub enum MethodCommand {
    Card,
    Scripted,
    Row,
    Process,
    Clear,
    Block,
}

impl Named for Question {
    fn text(self) -> &'static str {
        match self {
            Question::Sha256 => "sha256",
            Question::Hmac => "hmac",
            Question::Derive => "derive",
            Question::Snn => "snn",
            Question::Decode => "decode",
            Question::Help => "help",
        }
    }
}

impl Listed for Question {
    const ALL: &'static [Question] = &[
        Question::Sha256,
        Question::Hmac,
        Question::Derive,
        Question::Snn,
        Question::Decode,
        Question::Help,
    ];
}

impl Named for MethodCommand {
    fn text(self) -> &'static str {
        match self {
            MethodCommand::Card => "card",
            MethodCommand::Scripted => "scripted",
            MethodCommand::Row => "row",
            MethodCommand::Process => "process",
            MethodCommand::Clear => "clear",
            MethodCommand::Block => "block",
        }
    }
}

impl Listed for MethodCommand {
    const ALL: &'static [MethodCommand] = &[
        MethodCommand::Card,
        MethodCommand::Scripted,
        MethodCommand::Row,
        MethodCommand::Process,
        MethodCommand::Clear,
        MethodCommand::Block,
    ];
}

impl CommandName {
    pub(crate) fn of(word: &[u8]) -> Option<CommandName> {
        match Question::of(word) {
            Some(question) => Some(CommandName::Question(question)),
            None => MethodCommand::of(word).map(CommandName::Method),
        }
    }
}

impl Display for CommandName {
    fn fmt<W: fmt::Write>(&self, f: &mut fmt::Formatter<W>) -> fmt::Result {
        f.write_str(match self {
            CommandName::Question(question) => question.text(),
            CommandName::Method(command) => command.text(),
        })
    }
}

#[derive(Clone, Copy, Debug, PartialEq, Eq, PartialOrd, Ord)]
pub enum ValueName {
    Abba,
    At,
    Autn,
    Auts,
    Ck,
    Identifier,
    Ik,
    Key,
    Kind,
    Message,
    Name,
    Outcome,
    Packet,
    Rand,
    Res,
    Sequence,
    Snn,
    Store,
    Suci,
    Supi,
}

impl Display for ValueName {
    fn fmt<W: fmt::Write>(&self, f: &mut fmt::Formatter<W>) -> fmt::Result {
        f.write_str(self.text())
    }
}

impl Named for ValueName {
    fn text(self) -> &'static str {
        match self {
            ValueName::Abba => "abba",
            ValueName::At => "at",
            ValueName::Autn => "autn",
            ValueName::Auts => "auts",
            ValueName::Ck => "ck",
            ValueName::Identifier => "identifier",
            ValueName::Ik => "ik",
            ValueName::Key => "key",
            ValueName::Kind => "kind",
            ValueName::Message => "message",
            ValueName::Name => "name",
            ValueName::Outcome => "outcome",
            ValueName::Packet => "packet",
            ValueName::Rand => "rand",
            ValueName::Res => "res",
            ValueName::Sequence => "sequence",
            ValueName::Snn => "snn",
            ValueName::Store => "store",
            ValueName::Suci => "suci",
            ValueName::Supi => "supi",
        }
    }
}

// Which words a value can be.
#[derive(Clone, Copy, Debug)]
pub enum Choices {
    Cards,
    CardOutcomes,
    MethodOutcomes,
}

impl Display for Choices {
    fn fmt<W: fmt::Write>(&self, f: &mut fmt::Formatter<W>) -> fmt::Result {
        f.write_str(match self {
            Choices::Cards => "test, recorded",
            Choices::CardOutcomes => "out, wrong, stale, good",
            Choices::MethodOutcomes => "go-on, granted, refuse",
        })
    }
}

// A word that a value can be.
#[derive(Clone, Copy, Debug)]
pub enum Choice {
    Card(CardKind),
    CardOutcome(CardWord),
    MethodOutcome(MethodWord),
}

impl Display for Choice {
    fn fmt<W: fmt::Write>(&self, f: &mut fmt::Formatter<W>) -> fmt::Result {
        f.write_str(match self {
            Choice::Card(word) => word.text(),
            Choice::CardOutcome(word) => word.text(),
            Choice::MethodOutcome(word) => word.text(),
        })
    }
}

// The words that one value can be.
pub(crate) trait Chosen: Listed {
    const CHOICES: Choices;

    fn choice(self) -> Choice;
}

#[derive(Clone, Copy, Debug)]
pub enum CardKind {
    Test,
    Recorded,
}

impl Named for CardKind {
    fn text(self) -> &'static str {
        match self {
            CardKind::Test => "test",
            CardKind::Recorded => "recorded",
        }
    }
}

impl Listed for CardKind {
    const ALL: &'static [CardKind] = &[CardKind::Test, CardKind::Recorded];
}

impl Chosen for CardKind {
    const CHOICES: Choices = Choices::Cards;

    fn choice(self) -> Choice {
        Choice::Card(self)
    }
}

#[derive(Clone, Copy, Debug)]
pub enum CardWord {
    Out,
    Wrong,
    Stale,
    Good,
}

impl Named for CardWord {
    fn text(self) -> &'static str {
        match self {
            CardWord::Out => "out",
            CardWord::Wrong => "wrong",
            CardWord::Stale => "stale",
            CardWord::Good => "good",
        }
    }
}

impl Listed for CardWord {
    const ALL: &'static [CardWord] = &[
        CardWord::Out,
        CardWord::Wrong,
        CardWord::Stale,
        CardWord::Good,
    ];
}

impl Chosen for CardWord {
    const CHOICES: Choices = Choices::CardOutcomes;

    fn choice(self) -> Choice {
        Choice::CardOutcome(self)
    }
}

#[derive(Clone, Copy, Debug)]
pub enum MethodWord {
    GoOn,
    Granted,
    Refuse,
}

impl Named for MethodWord {
    fn text(self) -> &'static str {
        match self {
            MethodWord::GoOn => "go-on",
            MethodWord::Granted => "granted",
            MethodWord::Refuse => "refuse",
        }
    }
}

impl Listed for MethodWord {
    const ALL: &'static [MethodWord] = &[MethodWord::GoOn, MethodWord::Granted, MethodWord::Refuse];
}

impl Chosen for MethodWord {
    const CHOICES: Choices = Choices::MethodOutcomes;

    fn choice(self) -> Choice {
        Choice::MethodOutcome(self)
    }
}
