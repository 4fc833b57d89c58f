// The calls that change the session, in place: all that can be refused is tried first, by `?`, and the session is changed after the last of it.
// Each is held to `Stepped`.
#![tactic(auto)]

ghost use Rattle.std.specs.Prelude.{[]};
ghost use Rattle.model.specs.Record.{Open, Apply, Undo, Close};
ghost use Rattle.model.specs.Answers.{open_answer, apply_answer, step_answer};
ghost use Rattle.session.specs.Sessions.{StoredSession, Stepped};

use history::{pop, push};
use model::{ApplyAnswer, OpenAnswer, Opened, Refusal, StepAnswer};
use reading::drawing::read_drawing;
use rules::read_rule;
use session::Session;

// "Open, on an accepted file, sets scheme and drawing, with no copies."
pub fn open(session: &mut Session, file: &[u8]) -> OpenAnswer
    requires { StoredSession session.old }
    ensures { Stepped (Open file.now) session.old (open_answer result) [] session.new }
{
    if session.opened {
        return Err(Refusal::AlreadyOpen);
    }
    let drawing = read_drawing(file)?;
    session.opened = true;
    session.scheme = drawing.scheme;
    session.instance = drawing.instance;
    session.history.depth = 0;
    Ok(Opened {
        classes: session.scheme.classes.count(),
        names: session.scheme.names.count(),
    })
}

// "Apply puts the old drawing at the head of the copies, drops a ninth, and sets the new drawing, even if equal."
pub fn apply(session: &mut Session, rule: &[u8]) -> ApplyAnswer
    requires { StoredSession session.old }
    ensures { Stepped (Apply rule.now) session.old (apply_answer result) [] session.new }
{
    if !session.opened {
        return Err(Refusal::NotOpen);
    }
    let accepted = read_rule(rule, &session.scheme)?;
    let applied = operations::apply(&session.scheme, &session.instance, &accepted)?;
    push(&mut session.history, &session.instance);
    session.instance = applied.instance;
    Ok(applied.counts)
}

// "Undo takes the head copy off the list and sets it as drawing."
pub fn undo(session: &mut Session) -> StepAnswer
    requires { StoredSession session.old }
    ensures { Stepped Undo session.old (step_answer result) [] session.new }
{
    if !session.opened {
        return Err(Refusal::NotOpen);
    }
    if session.history.depth == 0 {
        return Err(Refusal::NoCopy);
    }
    session.instance = pop(&mut session.history);
    Ok(())
}

// "Close makes it shut."
pub fn close(session: &mut Session) -> StepAnswer
    requires { StoredSession session.old }
    ensures { Stepped Close session.old (step_answer result) [] session.new }
{
    if session.opened {
        *session = Session::new();
        Ok(())
    } else {
        Err(Refusal::NotOpen)
    }
}
