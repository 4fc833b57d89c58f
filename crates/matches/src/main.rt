// Reads the drawing file that its first argument names, and the rule texts that the others name, and prints of each rule's pattern all matchings,
// listed by first and after; how many a walk visits and how many images it notes; and what comes after lists that are no matchings.
#![tactic(auto)]

use files::{Arguments, NAME, load};
use graph::pattern::PackedPattern;
use matcher::listing::{Matching, Matchings};
use model::Refusal;
use notes::{Notes, Noting};
use reading::ENOUGH;
use reading::drawing::{Whole, read_drawing};
use rules::read_rule;
use std::io;
use std::rt::Files;

// How often after is asked in a listing, so that at most 101 matchings are printed.
const LISTED: usize = 100;

fn print_given(rt: &impl Print, given: Result<Option<Matching>, Refusal>) -> io::Result<()> {
    match given {
        Ok(Some(matching)) => print!(rt; " ({matching})"),
        Ok(None) => print!(rt; " none"),
        Err(refusal) => print!(rt; " refused={}", table::row(refusal)),
    }
}

fn print_listing(rt: &impl Print, matchings: Matchings) -> io::Result<()> {
    let mut given = Ok(matchings.first());
    print_given(rt, given)?;
    for _ in 0..LISTED {
        let Ok(Some(matching)) = given else { break };
        given = matchings.after(&matching.numbers[..matchings.pattern.order]);
        print_given(rt, given)?;
    }
    Ok(())
}

// A walk that notes nothing, and for each pattern node one that notes its images.
fn print_visits(rt: &impl Print, matchings: Matchings) -> io::Result<()> {
    let mut none = Notes::new();
    let visits = matchings.visit_all(Noting::Nothing, &mut none);
    print!(rt; " visits={visits} marks={}", none.count())?;
    for q in 0..matchings.pattern.order as u64 {
        let mut images = Notes::new();
        matchings.visit_all(Noting::Node(q), &mut images);
        print!(rt; ",{}", images.count())?;
    }
    Ok(())
}

fn print_after(rt: &impl Print, matchings: Matchings, number: u64) -> io::Result<()> {
    let list = [number; PackedPattern::NODES + 1];
    print!(rt; " after={number}")?;
    print_given(rt, matchings.after(&list[..matchings.pattern.order]))
}

fn show_matchings(rt: &impl Print, matchings: Matchings) -> io::Result<()> {
    print_listing(rt, matchings)?;
    print_visits(rt, matchings)?;
    for number in [0, 4, 5, u64::MAX] {
        print_after(rt, matchings, number)?;
    }
    print_given(rt, matchings.after(&[0; PackedPattern::NODES + 1]))?;
    println!(rt)
}

fn show_rule(rt: &(impl Files + Print + Eprint), whole: &Whole, name: &[u8]) -> io::Result<()> {
    let mut text = [0u8; ENOUGH];
    let Some(length) = load(rt, name, &mut text) else {
        return Ok(())
    };
    // Kept: `write_all` and no `print!`, since a name is bytes and maybe no UTF-8.
    rt.write_all(name)?;
    match read_rule(&text[..length], &whole.scheme) {
        Ok(rule) => show_matchings(
            rt,
            Matchings {
                instance: &whole.instance,
                pattern: &rule.pattern,
            },
        ),
        Err(refusal) => println!(rt; " refused={}", table::row(refusal)),
    }
}

fn main(rt: HostRuntime) -> io::Result<()> {
    let mut names: Arguments<_, NAME> = Arguments::new(&rt);
    let job = names.next().unwrap_or_default();
    let mut text = [0u8; ENOUGH];
    let Some(length) = load(&rt, job.bytes(), &mut text) else {
        return Ok(())
    };
    match read_drawing(&text[..length]) {
        Ok(whole) => {
            for name in names {
                show_rule(&rt, &whole, name.bytes())?;
            }
            Ok(())
        }
        Err(refusal) => println!(rt; " refused={}", table::row(refusal)),
    }
}
