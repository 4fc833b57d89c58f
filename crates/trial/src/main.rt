// "Program `trial` reads job.txt and rule.txt, opens, applies, and prints `done=` with the five counts and the saved file, or `refused=` with
// number and returned number." A file that can't be read is named on standard error, and then nothing is printed.
#![tactic(auto)]

use std::io;
use trials::{PRINTED, job_room, rule_room, write_trial};

fn main(rt: HostRuntime) -> io::Result<()> {
    let mut job = job_room();
    let drawing = files::load(&rt, b"job.txt", &mut job);
    let mut rule = rule_room();
    let action = files::load(&rt, b"rule.txt", &mut rule);
    let (Some(drawing), Some(action)) = (drawing, action) else {
        return Ok(())
    };
    let mut text = [0u8; PRINTED];
    let length = write_trial(&job[..drawing], &rule[..action], &mut text);
    rt.write_all(&text[..length])
}
