// Reads a script of calls from standard input, and makes them one after another in one session, printing each answer as it comes. A script that is
// too long or malformed is told on standard error, and none of its calls is made.
#![tactic(auto)]

ghost use Rattle.session.specs.Sessions.{StoredSession};

use matcher::listing::Matching;
use model::Refusal;
use runs::{Kind, NUMBERS, perform};
use script::{BUFFER, Call, Entries, Entry};
use session::Session;
use std::io;

mod script;

// The most bytes that a script has.
const SCRIPT: usize = 1048576;

// An answer of a call that changes the session, as its numbers: 0 and those of the report, or the refusal's number and what is returned.
fn print_performed(rt: &impl Print, kind: Kind, numbers: [u64; NUMBERS]) -> io::Result<()> {
    let [refusal, a, b, c, d, e] = numbers;
    if refusal != 0 {
        return println!(rt; "refused={refusal},{a}");
    }
    match kind {
        Kind::Open => println!(rt; "done={a},{b}"),
        Kind::Apply => println!(rt; "done={a},{b},{c},{d},{e}"),
        Kind::Undo | Kind::Close => println!(rt; "done="),
    }
}

fn print_matched(rt: &impl Print, given: Result<Option<Matching>, Refusal>) -> io::Result<()> {
    match given {
        Ok(Some(matching)) => println!(rt; "matching={matching}"),
        Ok(None) => println!(rt; "none"),
        Err(refusal) => println!(rt; "refused={}", table::row(refusal)),
    }
}

// What save answers, and what it wrote.
fn print_saved(rt: &impl Print, session: &Session, buf: &mut [u8]) -> io::Result<()>
    requires { StoredSession session.now }
{
    match queries::save(session, buf) {
        Ok(saved) => {
            let length = saved as usize;
            println!(rt; "done={length}")?;
            // Kept: `write_all` and no `print!`, since the file is bytes in a buffer.
            rt.write_all(&buf[..buf.len().min(length)])
        }
        Err(refusal) => println!(rt; "refused={}", table::row(refusal)),
    }
}

// Makes a call, and prints its answer.
fn make(rt: &impl Print, session: &mut Session, entry: Entry) -> io::Result<()>
    requires { StoredSession session.old }
    ensures { StoredSession session.new }
{
    let text = entry.text;
    match entry.call {
        Call::Change(kind) => print_performed(rt, kind, perform(session, kind as u8, text)),
        Call::First => print_matched(rt, queries::first(session, text)),
        Call::After(line) => {
            let list = &line.numbers[1..line.count];
            print_matched(rt, queries::after(session, text, list))
        }
        Call::Save(length) => print_saved(rt, session, &mut [0; BUFFER][..length]),
    }
}

// Where the first malformed call begins.
fn first_bad(script: &[u8]) -> Option<usize> {
    Entries::new(script).find_map(|entry| entry.err())
}

fn replay(rt: &impl Print, script: &[u8]) -> io::Result<()> {
    let mut session = Session::new();
    for entry in Entries::new(script) {
        let Ok(entry) = entry else { break };
        make(rt, &mut session, entry)?;
    }
    Ok(())
}

// One byte more, so that a script that is too long shows. A function of its own, so that no proof of `main` unfolds so long an array.
fn empty_script() -> [u8; SCRIPT + 1] {
    [0u8; SCRIPT + 1]
}

fn main(rt: HostRuntime) -> io::Result<()> {
    let mut script = empty_script();
    let mut input = rt.stdin();
    let Some(length) = files::load_opened(&rt, &mut input, b"standard input", &mut script) else {
        return Ok(())
    };
    if SCRIPT < length {
        return eprintln!(rt; "replay: the script is longer than {SCRIPT} bytes; nothing was run");
    }
    if let Some(bad) = first_bad(&script[..length]) {
        return eprintln!(rt;
            "replay: no call begins at byte {bad} of the script, counted from 0; nothing was run"
        );
    }
    replay(&rt, &script[..length])
}
