// Reads the files that its arguments name, two by two: a drawing file and a rule text. It prints the two names, and then what program trial prints of
// the two files. A file that can't be read is named on standard error, and its pair is passed over.
#![tactic(auto)]

use files::{Arguments, load};
use std::io;
use std::rt::Files;
use trials::{PRINTED, job_room, rule_room, write_trial};

// No name of a file has more bytes.
const NAME: usize = 4096;

// Kept: `write_all` and no `print!`, since a name is bytes and maybe no UTF-8.
fn print_name(rt: &impl Print, name: &[u8]) -> io::Result<()> {
    rt.write_all(name)?;
    print!(rt; " ")
}

fn print_trial(rt: &impl Print, job: &[u8], rule: &[u8]) -> io::Result<()> {
    let mut text = [0u8; PRINTED];
    let length = write_trial(job, rule, &mut text);
    rt.write_all(&text[..length])
}

fn show_pair(
    rt: &(impl Files + Print + Eprint),
    job_name: &[u8],
    rule_name: &[u8],
) -> io::Result<()> {
    let mut job = job_room();
    let drawing = load(rt, job_name, &mut job);
    let mut rule = rule_room();
    let action = load(rt, rule_name, &mut rule);
    let (Some(drawing), Some(action)) = (drawing, action) else {
        return Ok(())
    };
    print_name(rt, job_name)?;
    print_name(rt, rule_name)?;
    print_trial(rt, &job[..drawing], &rule[..action])
}

fn main(rt: HostRuntime) -> io::Result<()> {
    let mut names: Arguments<_, NAME> = Arguments::new(&rt);
    // Kept: two names at a time, until one is missing: a `for` gives one.
    while let (Some(job), Some(rule)) = (names.next(), names.next()) {
        show_pair(&rt, job.bytes(), rule.bytes())?;
    }
    Ok(())
}
