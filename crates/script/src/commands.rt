// The commands of a script: what a line asks for.
ghost use Rattle.std.specs.Prelude.{◌≡◌, Bool, true, IfSome, IfOk};
ghost use Rattle.script.specs.Questions.{needs_no_method};
ghost use Rattle.script.specs.Stages.{fits};

use crate::methods::{Start, Use, bare, card, card_row, method_row, process, scripted};
use crate::names::{CommandName, Listed, MethodCommand, Question};
use crate::refusal::{Quoted, Refusal};
use crate::words::Words;
use answers::{Answer, Help};
use cards::CardRow;
use method::Row;
use std::alloc::Global;

#[derive(Drop)]
pub enum Command {
    // The line needs no method, and this is its answer.
    Answered(Answer<'static>),
    // A method takes the place of the one before.
    Start(Start),
    // A row of the recorded card, or of the scripted method.
    CardRow(CardRow),
    MethodRow(Row),
    Use(Use),
}

// What can be done with the method that was started last.
#[derive(Clone, Copy)]
pub enum Stage {
    // None is started.
    NoMethod,
    // It is not used yet, and takes rows of a recorded card, or of the scripted method.
    CardRows,
    MethodRows,
    // It takes no rows, or none any more.
    NoRows,
}

// Which commands a line can be: what the program knows, and what it can do now.
pub trait Grammar {
    type Asked;

    // Whether a line can ask for this.
    ghost takes: { Self → Self.Asked → Bool };

    // What the line asks for, if it has any words.
    fn read(&self, heap: Global, line: &[u8]) -> Result<Option<Self::Asked>, Refusal>
        ensures { IfOk result (λ o. IfSome o (λ asked. takes self.now asked ≡ true)) };
}

// The commands that need no method are all that there are.
#[derive(Clone, Copy)]
pub struct Questions;

impl Grammar for Questions {
    type Asked = Answer<'static>;

    ghost takes = { λ _ answer. needs_no_method answer };

    fn read(&self, heap: Global, line: &[u8]) -> Result<Option<Answer<'static>>, Refusal> {
        question_of(heap, line)
    }
}

impl Grammar for Stage {
    type Asked = Command;

    ghost takes = { fits };

    fn read(&self, heap: Global, line: &[u8]) -> Result<Option<Command>, Refusal> {
        command_of(heap, *self, line)
    }
}

// What the line's first word names, and the words after it, if there are any.
fn first_word<'a, N: Drop, F: FnOnce(&[u8]) -> Option<N>>(
    heap: Global,
    line: &'a [u8],
    named: F,
) -> Result<Option<(N, Words<'a>)>, Refusal>
    requires { F.IsAlwaysCallable named }
{
    let mut words = Words { heap, rest: line };
    let Some(word) = words.next() else {
        return Ok(None);
    };
    match named(word) {
        Some(name) => Ok(Some((name, words))),
        None => Err(Refusal::UnknownCommand(Quoted::of(word))),
    }
}

// The answer to the line, if it has any words, where there are no commands but those that need no method.
fn question_of(heap: Global, line: &[u8]) -> Result<Option<Answer<'static>>, Refusal>
    ensures { IfOk result (λ o. IfSome o (λ a. needs_no_method a ≡ true)) }
{
    let Some((question, words)) = first_word(heap, line, Question::of)? else {
        return Ok(None);
    };
    Ok(Some(question.answer(Help::Questions, words)?))
}

// What the line asks for, if it has any words.
pub fn command_of(heap: Global, stage: Stage, line: &[u8]) -> Result<Option<Command>, Refusal>
    ensures { IfOk result (λ o. IfSome o (λ c. fits stage c ≡ true)) }
{
    let Some((name, words)) = first_word(heap, line, CommandName::of)? else {
        return Ok(None);
    };
    Ok(Some(match name {
        CommandName::Question(question) => Command::Answered(question.answer(Help::All, words)?),
        CommandName::Method(command) => read_command(stage, command, words)?,
    }))
}

fn read_command(stage: Stage, command: MethodCommand, words: Words<'_>) -> Result<Command, Refusal>
    ensures { IfOk result (λ c. fits stage c ≡ true) }
{
    match command {
        MethodCommand::Card => Ok(Command::Start(card(words)?)),
        MethodCommand::Scripted => Ok(Command::Start(scripted(words)?)),
        MethodCommand::Row => row(stage, words),
        MethodCommand::Process => used(stage, process(words)),
        MethodCommand::Clear => used(stage, bare(command, words, Use::Clear)),
        MethodCommand::Block => used(stage, bare(command, words, Use::Block)),
    }
}

// Without a method nothing else of the line is told.
fn used(stage: Stage, command: Result<Use, Refusal>) -> Result<Command, Refusal>
    ensures { IfOk result (λ c. fits stage c ≡ true) }
{
    match stage {
        Stage::NoMethod => Err(Refusal::NoMethod),
        _ => Ok(Command::Use(command?)),
    }
}

fn row(stage: Stage, words: Words<'_>) -> Result<Command, Refusal>
    ensures { IfOk result (λ c. fits stage c ≡ true) }
{
    match stage {
        Stage::NoMethod => Err(Refusal::NoMethod),
        Stage::CardRows => Ok(Command::CardRow(card_row(words)?)),
        Stage::MethodRows => Ok(Command::MethodRow(method_row(words)?)),
        Stage::NoRows => Err(Refusal::NoRow),
    }
}
