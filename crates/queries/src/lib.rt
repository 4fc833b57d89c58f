// The calls that only read the session: first, after, save. Each is held to `Stepped`.
#![tactic(auto)]

ghost use Rattle.std.specs.Prelude.{[]};
ghost use Rattle.model.specs.Record.{First, After, Save};
ghost use Rattle.model.specs.Answers.{save_answer};
ghost use Rattle.matcher.specs.Matchers.{given};
ghost use Rattle.session.specs.Sessions.{StoredSession, Stepped};
ghost use Rattle.queries.specs.Patterns.{ReadsPattern};

use graph::pattern::PackedPattern;
use matcher::listing::{Matching, Matchings};
use model::{Refusal, SaveAnswer};
use rules::read_rule;
use session::Session;

// The pattern of a rule text, read in the open scheme.
fn read_pattern(session: &Session, rule: &[u8]) -> Result<PackedPattern, Refusal>
    requires { StoredSession session.now }
    ensures { ReadsPattern session.now rule.now result }
{
    if !session.opened {
        return Err(Refusal::NotOpen);
    }
    let read = read_rule(rule, &session.scheme)?;
    Ok(read.pattern)
}

// Kept: an instance and a pattern are made `Matchings` here and in `after`, since the pattern is read only in the call.
pub fn first(session: &Session, rule: &[u8]) -> Result<Option<Matching>, Refusal>
    requires { StoredSession session.now }
    ensures { Stepped (First rule.now) session.now (given result) [] session.now }
{
    let pattern = read_pattern(session, rule)?;
    let matchings = Matchings {
        instance: &session.instance,
        pattern: &pattern,
    };
    Ok(matchings.first())
}

pub fn after(session: &Session, rule: &[u8], list: &[u64]) -> Result<Option<Matching>, Refusal>
    requires { StoredSession session.now }
    ensures { Stepped (After rule.now list.now) session.now (given result) [] session.now }
{
    let pattern = read_pattern(session, rule)?;
    let matchings = Matchings {
        instance: &session.instance,
        pattern: &pattern,
    };
    matchings.after(list)
}

// "Save, too, only reads the session, and writes the drawing file."
pub fn save(session: &Session, buf: &mut [u8]) -> SaveAnswer
    requires { StoredSession session.now }
    ensures { Stepped (Save buf.old) session.now (save_answer result) buf.new session.now }
{
    if session.opened {
        writing::save::save(&session.scheme, &session.instance, buf)
    } else {
        Err(Refusal::NotOpen)
    }
}
