// The engine for callers in other languages (include/hengvoat.h): each call of crate engine, with its answer as a struct of numbers.
// The session is the caller's own; there is no other state.
#![tactic(auto)]

ghost use Rattle.std.specs.Prelude.{[]};
ghost use Rattle.model.specs.Record.{Open, Apply, Undo, Close, First, After, Save};
ghost use Rattle.model.specs.Answers.{open_answer, apply_answer, step_answer, save_answer};
ghost use Rattle.matcher.specs.Matchers.{given};
ghost use Rattle.session.specs.Sessions.{StoredSession, NewSession};
ghost use Rattle.results.specs.Results.{open_result, apply_result, step_result, matching_result, save_result};
ghost use Rattle.hengvoat.specs.Exports.{Exports};

use engine::{after, apply, close, first, open, save, undo};
use results::{
    ApplyResult, MatchingResult, OpenResult, SaveResult, StepResult, apply_result, matching_result,
    open_result, save_result, step_result,
};
use session::Session;

#[unsafe(no_mangle)]
pub extern "C" fn hengvoat_new() -> Session
    ensures { NewSession result }
{
    Session::new()
}

#[unsafe(no_mangle)]
pub extern "C" fn hengvoat_open(session: &mut Session, file: &[u8]) -> OpenResult
    requires { StoredSession session.old }
    ensures { Exports open_answer open_result (Open file.now) session.old result [] session.new }
{
    open_result(open(session, file))
}

#[unsafe(no_mangle)]
pub extern "C" fn hengvoat_apply(session: &mut Session, rule: &[u8]) -> ApplyResult
    requires { StoredSession session.old }
    ensures { Exports apply_answer apply_result (Apply rule.now) session.old result [] session.new }
{
    apply_result(apply(session, rule))
}

#[unsafe(no_mangle)]
pub extern "C" fn hengvoat_undo(session: &mut Session) -> StepResult
    requires { StoredSession session.old }
    ensures { Exports step_answer step_result Undo session.old result [] session.new }
{
    step_result(undo(session))
}

#[unsafe(no_mangle)]
pub extern "C" fn hengvoat_close(session: &mut Session) -> StepResult
    requires { StoredSession session.old }
    ensures { Exports step_answer step_result Close session.old result [] session.new }
{
    step_result(close(session))
}

// The rest only read the session.
#[unsafe(no_mangle)]
pub extern "C" fn hengvoat_first(session: &Session, rule: &[u8]) -> MatchingResult
    requires { StoredSession session.now }
    ensures { Exports given matching_result (First rule.now) session.now result [] session.now }
{
    matching_result(first(session, rule))
}

#[unsafe(no_mangle)]
pub extern "C" fn hengvoat_after(session: &Session, rule: &[u8], list: &[u64]) -> MatchingResult
    requires { StoredSession session.now }
    ensures { Exports given matching_result (After rule.now list.now) session.now result [] session.now }
{
    matching_result(after(session, rule, list))
}

#[unsafe(no_mangle)]
pub extern "C" fn hengvoat_save(session: &Session, buf: &mut [u8]) -> SaveResult
    requires { StoredSession session.now }
    ensures { Exports save_answer save_result (Save buf.old) session.now result buf.new session.now }
{
    save_result(save(session, buf))
}
