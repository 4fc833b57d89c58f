// The lines of drawing files and rule texts: "key=numbers, comma between, no spaces".
ghost use Rattle.std.specs.Prelude.{◌≡◌, IfSome};
ghost use Rattle.model.specs.Files.{full};
ghost use Rattle.forms.specs.Forms.{kind_of};
ghost use Rattle.text.specs.Lines.{Tabled, row_in, kind_with, line_in, DrawingParsed, RuleParsed, FreshLast, follows_last};

use forms::{LineKind, key_of};
use numerals::scan::{find, numeral_below};

// A line's kind, and its numbers as one.
#[derive(Clone, Copy)]
pub struct Line {
    pub kind: LineKind,
    pub row: u64,
}

// How many lines stand above, and the last of them, where there is one.
#[derive(Clone, Copy)]
pub struct Last {
    pub lines: u64,
    pub line: Option<Line>,
}

impl Last {
    // Kept: a constructor that promises a fresh value; by a derived `Default` it would be one call more, of the same shape in each type.
    pub fn new() -> Last
        ensures { FreshLast result }
    {
        Last {
            lines: 0,
            line: None,
        }
    }
}

// The row of a line's numbers, each below its bound, between commas.
// Kept: places in the text: pieces of a `split` would be counted against the form's numbers all the same, and one more asked for at the end.
fn row_of(s: &[u8], kind: LineKind) -> Option<u64>
    ensures { result ≡ row_in kind s.now }
{
    let form = kind.form();
    let mut row: u64 = 0;
    let mut at = 0;
    for place in 0..form.numbers {
        if s.len() < at {
            return None;
        }
        let end = at + find(&s[at..], b',');
        let below = form.below[place];
        let Some(n) = numeral_below(&s[at..end], below) else {
            return None;
        };
        row = row * form.room[place] + n;
        at = end + 1;
    }
    if at == s.len() + 1 { Some(row) } else { None }
}

// The kind whose key has this number.
fn kind_with(key: u64, kinds: &[LineKind]) -> Option<LineKind>
    ensures { result ≡ kind_with key kinds.now }
{
    kinds.iter().copied().find(|kind| kind.form().key == key)
}

// A line whose kind is one of these.
fn line_of(s: &[u8], kinds: &[LineKind]) -> Option<Line>
    ensures { result ≡ line_in kinds.now s.now }
{
    let equals = s.iter().position(|b| *b == b'=')?;
    let numbers = &s[equals + 1..];
    if numbers.contains(&b'=') {
        return None;
    }
    let kind = kind_with(key_of(&s[..equals]), kinds)?;
    let row = row_of(numbers, kind)?;
    Some(Line { kind, row })
}

// Kept: two thin calls of one function, since each promises a line of its own format, with that format's keys.
pub fn drawing_line(s: &[u8]) -> Option<Line>
    ensures { DrawingParsed s.now result }
{
    line_of(s, &LineKind::DRAWING)
}

pub fn rule_line(s: &[u8]) -> Option<Line>
    ensures { RuleParsed s.now result }
{
    line_of(s, &LineKind::RULE)
}

// In turn and order after the last line above.
pub fn follows(last: Option<Line>, line: Line) -> bool
    requires { (IfSome last Tabled) × (Tabled line) }
    ensures { result ≡ follows_last last line }
{
    let Some(above) = last else {
        return true;
    };
    if above.kind != line.kind {
        return above.kind < line.kind;
    }
    match line.kind.form().by {
        Some(by) => above.row / by < line.row / by,
        None => true,
    }
}

// As many lines of the kind stand above as may be.
pub fn crowded(kind: LineKind, above: usize) -> bool
    ensures { result ≡ full (kind_of kind).form.most above }
{
    kind.form().most.is_some_and(|most| most <= above)
}
