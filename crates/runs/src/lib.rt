// A whole list of calls, handed over as slices: kinds, texts one after another, and the bound of each text. specs/Runs.antt says what is promised.
#![tactic(auto)]

ghost use Rattle.std.specs.Prelude.{◌≡◌, ◌+◌, ◌≤◌, length};
ghost use Rattle.session.specs.Sessions.{StoredSession};
ghost use Rattle.runs.specs.Handed.{call_for, call_of, is_call, calls_in, in_six, answer_room, Decodes};
ghost use Rattle.runs.specs.Runs.{Makes, Performs, Runs, goes_on, Answered};

use calls::{apply, close, open, undo};
use model::Refusal;
use session::Session;

// The kinds of call that change the session, in the order of their numbers.
#[derive(Clone, Copy, PartialEq, Eq)]
pub enum Kind {
    Open,
    Apply,
    Undo,
    Close,
}

// A number that is no kind's.
#[derive(Clone, Copy, PartialEq, Eq)]
pub struct UnknownKind(pub u8);

impl TryFrom<u8> for Kind {
    type Error = UnknownKind;

    ghost try_from_gives = { Decodes };

    fn try_from(number: u8) -> Result<Self, UnknownKind> {
        match number {
            0 => Ok(Kind::Open),
            1 => Ok(Kind::Apply),
            2 => Ok(Kind::Undo),
            3 => Ok(Kind::Close),
            _ => Err(UnknownKind(number)),
        }
    }
}

// How many numbers a report has at most.
pub const REPORTED: usize = 5;

// How many numbers an answer takes.
pub const NUMBERS: usize = 6;

// One call: the numbers of its report, with 0 in the rest, or the refusal.
// Kept: five numbers, with 0 past those of a report: an enum of reports would be made here and unmade in `in_six` at once.
pub fn make(session: &mut Session, kind: Kind, text: &[u8]) -> Result<[u64; REPORTED], Refusal>
    requires { StoredSession session.old }
    ensures { Makes (call_for kind text.now) session.old result session.new }
{
    match kind {
        Kind::Open => {
            let opened = open(session, text)?;
            Ok([opened.classes, opened.names, 0, 0, 0])
        }
        Kind::Apply => {
            let counts = apply(session, text)?;
            Ok([
                counts.matchings,
                counts.added.nodes,
                counts.added.edges,
                counts.removed.nodes,
                counts.removed.edges,
            ])
        }
        Kind::Undo => {
            undo(session)?;
            Ok([0; REPORTED])
        }
        Kind::Close => {
            close(session)?;
            Ok([0; REPORTED])
        }
    }
}

// An answer as numbers: 0 before those of the report, or the refusal's number and what is returned, with 0 in the rest.
fn in_six(answer: Result<[u64; REPORTED], Refusal>) -> [u64; NUMBERS]
    ensures { result ≡ in_six answer }
{
    match answer {
        Ok(report) => [0, report[0], report[1], report[2], report[3], report[4]],
        Err(refusal) => {
            let row = table::row(refusal);
            [row.number, row.returned, 0, 0, 0, 0]
        }
    }
}

// One call, by its kind's number; every number past the last is taken for close.
// Kept: a kind's number, of which any is taken, as before: an enum would ask more of callers, who hand kinds over as bytes.
pub fn perform(session: &mut Session, kind: u8, text: &[u8]) -> [u64; NUMBERS]
    requires { StoredSession session.old }
    ensures { Performs (call_of kind text.now) session.old result session.new }
{
    in_six(make(session, Kind::try_from(kind).unwrap_or(Kind::Close), text))
}

// Whether an entry is a call.
fn is_call(kind: u8, from: usize, end: usize, texts: usize) -> bool
    ensures { result ≡ is_call kind from end texts }
{
    Kind::try_from(kind).is_ok() && from <= end && end <= texts
}

// Whether entry i is a call, and there is room for its answer.
#[tactic(auto, unfolding(crate::specs::Runs::goes_on))]
fn goes_on(kinds: &[u8], bounds: &[usize], texts: usize, room: usize, from: usize, i: usize) -> bool
    ensures { result ≡ goes_on kinds.now bounds.now texts room from i }
{
    i < kinds.len() && i < bounds.len() && i < room && is_call(kinds[i], from, bounds[i], texts)
}

// One call, with its answer written from a place on.
fn answer_call(session: &mut Session, kind: u8, text: &[u8], answers: &mut [u64], from: usize)
    requires stored_session { StoredSession session.old }
    requires answer_room_in_bounds { from + answer_room ≤ length answers.old }
    ensures { Answered (call_of kind text.now) session.old from answers.old session.new answers.new }
{
    let numbers = perform(session, kind, text);
    answers[from..from + NUMBERS].copy_from_slice(&numbers);
}

// Runs the calls, up to the first entry that is none or for whose answer there is no room; how many were run.
pub fn run_calls(
    session: &mut Session,
    kinds: &[u8],
    bounds: &[usize],
    texts: &[u8],
    answers: &mut [u64],
) -> usize
    requires { StoredSession session.old }
    ensures { Runs session.old (calls_in kinds.now bounds.now texts.now answers.old)
        answers.old result session.new answers.new }
{
    let mut from = 0;
    let mut i = 0;
    // Kept: one index goes over three slices, any of which may end first; over a `zip` of them the test of each entry would stand beside a count.
    while goes_on(kinds, bounds, texts.len(), answers.len() / NUMBERS, from, i) {
        let end = bounds[i];
        answer_call(session, kinds[i], &texts[from..end], answers, i * NUMBERS);
        from = end;
        i += 1;
    }
    i
}
