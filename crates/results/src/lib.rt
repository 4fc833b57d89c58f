// Answers as structs of numbers, for callers in other languages: 0 and 0, then what is reported; or the refusal's number, what is returned
// with it, and zeros. specs/Results.antt says so for each case.
#![tactic(auto)]

ghost use Rattle.std.specs.Prelude.{◌≡◌};
ghost use Rattle.results.specs.Results.{told, open_result, apply_result, step_result, matching_result, save_result};

use graph::pattern::PackedPattern;
use matcher::listing::Matching;
use model::{ApplyAnswer, Counts, OpenAnswer, Opened, Refusal, Row, SaveAnswer, StepAnswer};

// Kept: a number for the refusal, and below one for what is found, since C is given these structs and no enum may cross the border.
// Of undo and close, which report nothing.
#[repr(C)]
#[derive(Clone, Copy)]
pub struct StepResult {
    pub refusal: u64,
    pub returned: u64,
}

#[repr(C)]
#[derive(Clone, Copy)]
pub struct OpenResult {
    pub refusal: u64,
    pub returned: u64,
    pub classes: u64,
    pub names: u64,
}

#[repr(C)]
#[derive(Clone, Copy)]
pub struct ApplyResult {
    pub refusal: u64,
    pub returned: u64,
    pub matchings: u64,
    pub nodes_added: u64,
    pub edges_added: u64,
    pub nodes_removed: u64,
    pub edges_removed: u64,
}

// Of first and after: `found` is 1 where there is a matching, `length` how many numbers it has.
#[repr(C)]
#[derive(Clone, Copy)]
pub struct MatchingResult {
    pub refusal: u64,
    pub returned: u64,
    pub found: u64,
    pub length: u64,
    pub numbers: [u64; PackedPattern::NODES],
}

// `length` is that of the file, in bytes.
#[repr(C)]
#[derive(Clone, Copy)]
pub struct SaveResult {
    pub refusal: u64,
    pub returned: u64,
    pub length: u64,
}

// The first two numbers, and what is reported; or the row of the table of refusals, and nothing to report.
fn told<A: Copy>(answer: Result<A, Refusal>, nothing: A) -> (Row, A)
    ensures { result ≡ told answer nothing }
{
    match answer {
        Ok(report) => {
            let done = Row {
                number: 0,
                returned: 0,
            };
            (done, report)
        }
        Err(refusal) => (table::row(refusal), nothing),
    }
}

// Kept: functions and no `From`, here and below: each is called once, by the exported call of its name.
pub fn step_result(answer: StepAnswer) -> StepResult
    ensures { result ≡ step_result answer }
{
    let (row, ()) = told(answer, ());
    StepResult {
        refusal: row.number,
        returned: row.returned,
    }
}

pub fn open_result(answer: OpenAnswer) -> OpenResult
    ensures { result ≡ open_result answer }
{
    let (row, opened) = told(
        answer,
        Opened {
            classes: 0,
            names: 0,
        },
    );
    OpenResult {
        refusal: row.number,
        returned: row.returned,
        classes: opened.classes,
        names: opened.names,
    }
}

pub fn apply_result(answer: ApplyAnswer) -> ApplyResult
    ensures { result ≡ apply_result answer }
{
    let (row, counts) = told(answer, Counts::NONE);
    ApplyResult {
        refusal: row.number,
        returned: row.returned,
        matchings: counts.matchings,
        nodes_added: counts.added.nodes,
        edges_added: counts.added.edges,
        nodes_removed: counts.removed.nodes,
        edges_removed: counts.removed.edges,
    }
}

pub fn matching_result(answer: Result<Option<Matching>, Refusal>) -> MatchingResult
    ensures { result ≡ matching_result answer }
{
    let (row, matching) = told(answer, None);
    let (found, Matching { length, numbers }) = match matching {
        Some(matching) => (1, matching),
        None => (
            0,
            Matching {
                length: 0,
                numbers: [0; PackedPattern::NODES],
            },
        ),
    };
    MatchingResult {
        refusal: row.number,
        returned: row.returned,
        found,
        length,
        numbers,
    }
}

pub fn save_result(answer: SaveAnswer) -> SaveResult
    ensures { result ≡ save_result answer }
{
    let (row, bytes) = told(answer, 0);
    SaveResult {
        refusal: row.number,
        returned: row.returned,
        length: bytes,
    }
}
