// Reads the drawing files and rule texts that its arguments name, and prints for each what open would report and whether saving gives the same
// bytes, or what the rule holds, or the refusal. A rule text, which is one whose name begins with r, is read in the scheme of the last drawing
// file that was accepted.
#![tactic(auto)]

ghost use Rattle.std.specs.Prelude.{◌≡◌, ◌≤◌, take};
ghost use Rattle.model.specs.Meaning.{most_of_drawing};
ghost use Rattle.model.specs.Files.DrawingFile.{read_drawing};
ghost use Rattle.inspect.specs.Opened.{OpenAfter};

use files::{Arguments, NAME, load};
use graph::rule::PackedRule;
use reading::ENOUGH;
use reading::drawing::{Whole, read_drawing};
use rules::read_rule;
use std::io;
use std::rt::Files;
use writing::save::save;

// No drawing file has more bytes.
const FILE: usize = 20032;

// What stands in a buffer before it is lent: a byte that no drawing file has.
const BLANK: u8 = b'.';

// How many bytes at the front are as they were before the buffer was lent.
fn blanks(s: &[u8]) -> usize {
    s.iter().take_while(|byte| **byte == BLANK).count()
}

// How many bytes at the front are the same in both.
fn same(a: &[u8], b: &[u8]) -> usize
    ensures { take result a.now ≡ take result b.now }
{
    for (i, byte) in a.iter().enumerate() {
        if b.get(i) != Some(byte) {
            return i;
        }
    }
    a.len()
}

// Saves into a buffer that is too short, and prints the refusal and how many bytes were left alone.
fn print_short(rt: &impl Print, whole: &Whole, buf: &mut [u8]) -> io::Result<()> {
    if let Err(refusal) = save(&whole.scheme, &whole.instance, buf) {
        print!(rt; " short={} kept={}", table::row(refusal), blanks(buf))?;
    }
    Ok(())
}

// Saves into a buffer of exactly the file's length, and prints how many bytes are those of the text that was read.
fn print_same(rt: &impl Print, whole: &Whole, text: &[u8], buf: &mut [u8]) -> io::Result<()> {
    if save(&whole.scheme, &whole.instance, buf).is_ok() {
        print!(rt; " same={}", same(text, buf))?;
    }
    Ok(())
}

// Into a buffer that is one byte too short, and one that is just long enough. None is too short for an empty file.
fn save_closely(rt: &impl Print, whole: &Whole, text: &[u8], length: usize) -> io::Result<()>
    requires { length ≤ most_of_drawing }
{
    let mut short = [BLANK; FILE];
    print_short(rt, whole, &mut short[..length.saturating_sub(1)])?;
    let mut exact = [BLANK; FILE];
    print_same(rt, whole, text, &mut exact[..length])
}

// Also how many bytes after the file are as they were.
fn show_saved(rt: &impl Print, whole: &Whole, text: &[u8]) -> io::Result<()> {
    let mut buf = [BLANK; FILE];
    if let Ok(saved) = save(&whole.scheme, &whole.instance, &mut buf) {
        let length = saved as usize;
        print!(rt; " saved={length} rest={}", blanks(&buf[length..]))?;
        save_closely(rt, whole, text, length)?;
    }
    Ok(())
}

fn print_opened(rt: &impl Print, whole: &Whole, text: &[u8]) -> io::Result<()> {
    let scheme = &whole.scheme;
    print!(rt;
        " opened={},{}",
        scheme.classes.count(),
        scheme.names.count()
    )?;
    show_saved(rt, whole, text)?;
    println!(rt)
}

// Opens the file: what it makes is open then, or, where it is refused, what was open before.
fn show_drawing(rt: &impl Print, text: &[u8], current: &mut Whole) -> io::Result<()>
    ensures { OpenAfter (read_drawing text.now) current.old current.new }
{
    match read_drawing(text) {
        Ok(whole) => {
            *current = whole;
            print_opened(rt, current, text)
        }
        Err(refusal) => println!(rt; " refused={}", table::row(refusal)),
    }
}

fn show_rule(rt: &impl Print, text: &[u8], current: &Whole) -> io::Result<()> {
    match read_rule(text, &current.scheme) {
        Ok(rule) => {
            let PackedRule { pattern, action } = rule;
            print!(rt; " op={}", u64::from(action.operation))?;
            print!(rt; " pnodes={} pedges={}", pattern.order, pattern.size)?;
            println!(rt; " head={} parts={}", action.head, action.count)
        }
        Err(refusal) => println!(rt; " refused={}", table::row(refusal)),
    }
}

// Opens the file that is named, or reads its rule text in the scheme that is open.
fn show_file(
    rt: &(impl Files + Print + Eprint),
    name: &[u8],
    current: &mut Whole,
) -> io::Result<()> {
    let mut text = [0u8; ENOUGH];
    let Some(length) = load(rt, name, &mut text) else {
        return Ok(())
    };
    // Kept: `write_all` and no `print!`, since a name is bytes and maybe no UTF-8.
    rt.write_all(name)?;
    if name.starts_with(b"r") {
        show_rule(rt, &text[..length], current)
    } else {
        show_drawing(rt, &text[..length], current)
    }
}

fn main(rt: HostRuntime) -> io::Result<()> {
    let mut current = Whole::new();
    let names: Arguments<_, NAME> = Arguments::new(&rt);
    for name in names {
        show_file(&rt, name.bytes(), &mut current)?;
    }
    Ok(())
}
