// What program trial prints of a drawing file and a rule text, as text in a buffer. specs/Trials.antt says what is promised.
#![tactic(auto)]

ghost use Rattle.std.specs.Prelude.{◌≡◌, ◌≤◌, length};
ghost use Rattle.lists.specs.Buffers.{Writes};
ghost use Rattle.model.specs.Meaning.{most_of_drawing, enough_of_drawing, enough_of_rule};
ghost use Rattle.model.specs.Trial.{saved_file, trial};
ghost use Rattle.session.specs.Sessions.{unpack_session, StoredSession, NewSession};
ghost use Rattle.trials.specs.Trials.{most_of_done, most_of_trial, refused_text, counts_text, applied_text, Tried};

use calls::{apply, open};
use model::{ApplyAnswer, Counts, Refusal};
use printing::write_line;
use queries::save;
use session::Session;

// The first so many bytes of a drawing file, and of a rule text, decide what is printed (specs/Trials.antt, `LongTexts`); no more are printed than
// `PRINTED`.
const JOB: usize = 20106;

const RULE: usize = 465;

pub const PRINTED: usize = 20142;

// Room for as much of a drawing file as decides.
// Kept: two functions, since each says that its length is the definition's; of a const parameter it would be the number that a caller writes.
pub fn job_room() -> [u8; JOB]
    ensures { length result ≡ enough_of_drawing }
{
    [0; JOB]
}

// The same of a rule text.
pub fn rule_room() -> [u8; RULE]
    ensures { length result ≡ enough_of_rule }
{
    [0; RULE]
}

// "or `refused=` with number and returned number"
// Kept: that the buffer has room is a clause of each writer: a lent slice of at least so many bytes is no array of just so many.
fn write_refused(refusal: Refusal, out: &mut [u8]) -> usize
    requires { most_of_trial ≤ length out.old }
    ensures { Writes (refused_text refusal) out.old result out.new }
{
    let row = table::row(refusal);
    write_line(out, b"refused", &[row.number, row.returned])
}

// "`done=` with the five counts"
fn write_counts(counts: Counts, out: &mut [u8]) -> usize
    requires { most_of_trial ≤ length out.old }
    ensures { Writes (counts_text counts) out.old result out.new × (result ≤ most_of_done) }
{
    let numbers = [
        counts.matchings,
        counts.added.nodes,
        counts.added.edges,
        counts.removed.nodes,
        counts.removed.edges,
    ];
    write_line(out, b"done", &numbers)
}

// "the saved file"; a shut session has none
fn write_saved(session: &Session, out: &mut [u8]) -> usize
    requires stored_session { StoredSession session.now }
    requires most_of_drawing_in_bounds { most_of_drawing ≤ length out.old }
    ensures { Writes (saved_file (unpack_session session.now)) out.old result out.new × (result ≤ most_of_drawing) }
{
    save(session, out).unwrap_or(0) as usize
}

fn write_applied(session: &Session, counts: Counts, out: &mut [u8]) -> usize
    requires stored_session { StoredSession session.now }
    requires most_of_trial_in_bounds { most_of_trial ≤ length out.old }
    ensures { Writes (applied_text counts (unpack_session session.now)) out.old result out.new }
{
    let at = write_counts(counts, out);
    at + write_saved(session, &mut out[at..])
}

// Opens the drawing file in a new session, and applies the rule text.
fn open_and_apply(session: &mut Session, job: &[u8], rule: &[u8]) -> ApplyAnswer
    requires { NewSession session.old }
    ensures { Tried job.now rule.now result session.new }
{
    open(session, job)?;
    apply(session, rule)
}

pub fn write_trial(job: &[u8], rule: &[u8], out: &mut [u8]) -> usize
    requires { most_of_trial ≤ length out.old }
    ensures { Writes (trial job.now rule.now) out.old result out.new }
{
    let mut session = Session::new();
    match open_and_apply(&mut session, job, rule) {
        Ok(counts) => write_applied(&session, counts, out),
        Err(refusal) => write_refused(refusal, out),
    }
}
