// Plays a script: one method after another, each from its start to the next one's.
use crate::reasons::Told;
use aka::AkaPrime;
use answers::{Answer, Processed, Reason};
use cards::{CardRow, RecordedCard, TestCard};
use console::Session;
use method::{Method, Row, Scripted, Verdict};
use script::{Command, Request, Stage, Start, Use};
use std::io;
use std::io::{BufRead, Write};

// The most bytes of a message, and so of a packet.
const LONGEST_MESSAGE: usize = 2048;

// Answers every line.
pub(crate) fn play<R: BufRead, W: Write + Drop>(session: &mut Session<R, W>) -> io::Result<()> {
    let mut next = started_by(next_command(session, Stage::NoMethod)?);
    // Here and below: a script has no bound that a proof could know, and every function has to return.
    for _ in 0..u64::MAX {
        next = match next {
            None => break,
            Some(Start::TestCard(card)) => play_test_card(session, card)?,
            Some(Start::RecordedCard) => play_recorded_card(session)?,
            Some(Start::Scripted(store)) => play_scripted(session, store.as_slice())?,
        };
    }
    Ok(())
}

// The next command that is no question; the questions before it are answered here. There is none at the end of the script.
fn next_command<R: BufRead, W: Write + Drop>(
    session: &mut Session<R, W>,
    stage: Stage,
) -> io::Result<Option<Command>> {
    for _ in 0..u64::MAX {
        match session.next(&stage)? {
            Some(Command::Answered(answer)) => session.say(&answer)?,
            command => return Ok(command),
        }
    }
    Ok(None)
}

// The method that a command starts.
fn started_by(command: Option<Command>) -> Option<Start> {
    match command? {
        Command::Start(start) => Some(start),
        _ => None,
    }
}

fn play_test_card<R: BufRead, W: Write + Drop>(
    session: &mut Session<R, W>,
    card: TestCard,
) -> io::Result<Option<Start>> {
    session.say(&Answer::TestCard)?;
    let command = next_command(session, Stage::NoRows)?;
    play_method(session, &mut AkaPrime::new(card), command)
}

fn play_recorded_card<R: BufRead, W: Write + Drop>(
    session: &mut Session<R, W>,
) -> io::Result<Option<Start>> {
    session.say(&Answer::RecordedCard)?;
    let (rows, command) = rows::<_, _, CardRow>(session)?;
    let card = RecordedCard::new(rows.as_slice());
    play_method(session, &mut AkaPrime::new(card), command)
}

fn play_scripted<R: BufRead, W: Write + Drop>(
    session: &mut Session<R, W>,
    store: &[u8],
) -> io::Result<Option<Start>> {
    session.say(&Answer::Scripted(store.len()))?;
    let (rows, command) = rows::<_, _, Row>(session)?;
    play_method(session, &mut Scripted::new(rows.as_slice(), store), command)
}

// A row that a command can add at this stage.
trait AddedBy: Sized {
    const STAGE: Stage;

    fn added_by(command: Command) -> Result<Self, Command>;
}

impl AddedBy for CardRow {
    const STAGE: Stage = Stage::CardRows;

    fn added_by(command: Command) -> Result<CardRow, Command> {
        match command {
            Command::CardRow(row) => Ok(row),
            command => Err(command),
        }
    }
}

impl AddedBy for Row {
    const STAGE: Stage = Stage::MethodRows;

    fn added_by(command: Command) -> Result<Row, Command> {
        match command {
            Command::MethodRow(row) => Ok(row),
            command => Err(command),
        }
    }
}

// The rows that the next commands add, and the first command that adds none.
fn rows<R: BufRead, W: Write + Drop, T: AddedBy + Drop>(
    session: &mut Session<R, W>,
) -> io::Result<(Vec<T>, Option<Command>)> {
    let mut rows = Vec::new(session.heap());
    for _ in 0..u64::MAX {
        let Some(command) = next_command(session, T::STAGE)? else {
            break;
        };
        match T::added_by(command) {
            Ok(row) => {
                rows.push(row)?;
                session.say(&Answer::Row(rows.len()))?;
            }
            Err(command) => return Ok((rows, Some(command))),
        }
    }
    Ok((rows, None))
}

// Uses the method, from this command on, until another one is started.
fn play_method<R: BufRead, W: Write + Drop, M: Method>(
    session: &mut Session<R, W>,
    method: &mut M,
    first: Option<Command>,
) -> io::Result<Option<Start>>
where
    M::Fault: Told + Drop,
{
    let mut next = first;
    for _ in 0..u64::MAX {
        match next {
            Some(Command::Use(command)) => {
                let mut buffer = [0; 1500];
                session.say(&use_method(method, &command, &mut buffer))?;
            }
            command => return Ok(started_by(command)),
        }
        next = next_command(session, Stage::NoRows)?;
    }
    Ok(None)
}

fn use_method<'a, M: Method>(
    method: &mut M,
    command: &Use,
    buffer: &'a mut [u8; 1500],
) -> Answer<'a>
where
    M::Fault: Told + Drop,
{
    match command {
        Use::Process(request) => process(method, request, buffer),
        Use::Clear => {
            method.clear();
            Answer::Cleared
        }
        Use::Block => Answer::Block(method.block()),
    }
}

// Whether the bytes are an EAP request of this type, as a message can carry it.
fn is_request(packet: &[u8], eap_type: u8) -> bool {
    matches!(
        packet,
        [1, _, high, low, kind, ..]
            if *kind == eap_type
                && packet.len() <= LONGEST_MESSAGE
                && packet.len() == usize::from(u16::from_be_bytes([*high, *low]))
    )
}

fn process<'a, M: Method>(
    method: &mut M,
    request: &Request,
    buffer: &'a mut [u8; 1500],
) -> Answer<'a>
where
    M::Fault: Told + Drop,
{
    let packet = request.packet.as_slice();
    let eap_type = method.eap_type();
    if !is_request(packet, eap_type) {
        return Answer::NotTaken(eap_type);
    }
    let weighing = method.process(packet, &request.subscription, &request.suci, buffer);
    Answer::Processed(Processed {
        verdict: with_reason(weighing.verdict),
        reply: &buffer[..weighing.reply_len.min(buffer.len())],
        holds_block: method.block().is_some(),
    })
}

// The same verdict, with what the program tells of a fault. A `match`: a `map` of `Verdict` would be a public function of the
// library that asks of its callers that a closure may be called.
fn with_reason<F: Told + Drop>(verdict: Verdict<F>) -> Verdict<Reason> {
    match verdict {
        Verdict::GoOn => Verdict::GoOn,
        Verdict::Granted => Verdict::Granted,
        Verdict::Unproven(fault) => Verdict::Unproven(Reason {
            number: fault.number(),
            place: fault.place(),
            text: fault.text(),
        }),
    }
}
