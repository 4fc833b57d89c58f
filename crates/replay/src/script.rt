// A script of calls, from bytes to entries: each a line, and the text that follows it.
ghost use Rattle.std.specs.Prelude.{◌≡◌, ◌<◌, ◌-◌, ◌≤◌, length, drop, true, IfSome, MatchResult};
ghost use Rattle.std.specs.Iterator.{at_most};
ghost use Rattle.replay.specs.Entries.{line_room, fits, EntryAt};

use graph::pattern::PackedPattern;
use runs::Kind;

// The longest buffer that a script may have lent to save.
pub const BUFFER: usize = 65536;

// A length, and one number more than a pattern has nodes: a list that is longer still is refused as the first so many of its numbers are.
const ROOM: usize = PackedPattern::NODES + 2;

// The numbers of a line, as many as there is room for.
// Kept: an array with a count, since there is no heap.
#[derive(Clone, Copy)]
pub struct Numbers {
    pub numbers: [u64; ROOM],
    pub count: usize,
}

// The calls: one that changes the session; after with the numbers of its line, of which those after the first are its list; save with the length of
// its buffer.
#[derive(Clone, Copy)]
pub enum Call {
    Change(Kind),
    First,
    After(Numbers),
    Save(usize),
}

// A call, and its text.
#[derive(Clone, Copy)]
pub struct Entry<'a> {
    pub call: Call,
    pub text: &'a [u8],
    pub ghost fits: { fits call ≡ true },
}

// The entries of a script, one after another. In place of a malformed one comes where it begins, and then none follows.
#[derive(Drop)]
pub struct Entries<'a> {
    script: &'a [u8],
    at: usize,
    ghost inside: { at ≤ length script.now },
}

// A number has "no sign and no leading zero". One that is too large for 64 bits is past every length and every node's number.
// Kept: no `parse` of the library, which takes a sign and leading zeros, and gives no number where it is too large.
fn numeral(s: &[u8]) -> Option<u64> {
    if s.is_empty() || (1 < s.len() && s[0] == b'0') {
        return None;
    }
    let mut value: u64 = 0;
    for byte in s {
        match *byte {
            b'0'..=b'9' => value = value
                .saturating_mul(10)
                .saturating_add((*byte - b'0') as u64),
            _ => return None,
        }
    }
    Some(value)
}

// The numbers that follow in a line, each after an equals sign or a comma.
fn numbers_in(rest: &[u8]) -> Option<Numbers>
    ensures { IfSome result (λ line. line.count ≤ line_room) }
{
    let mut line = Numbers {
        numbers: [0; ROOM],
        count: 0,
    };
    if let Some((_, pieces)) = rest.split_first() {
        for piece in pieces.split(|byte| *byte == b',') {
            let value = numeral(piece)?;
            if line.count < ROOM {
                line.numbers[line.count] = value;
                line.count += 1;
            }
        }
    }
    Some(line)
}

// The call of a line's word and numbers.
fn call_of(word: &[u8], line: Numbers) -> Option<Call>
    requires { line.count ≤ line_room }
    ensures { IfSome result (λ call. fits call ≡ true) }
{
    let number = line.numbers[0];
    match (word, line.count) {
        (b"open", 1) => Some(Call::Change(Kind::Open)),
        (b"apply", 1) => Some(Call::Change(Kind::Apply)),
        (b"undo", 0) => Some(Call::Change(Kind::Undo)),
        (b"close", 0) => Some(Call::Change(Kind::Close)),
        (b"first", 1) => Some(Call::First),
        (b"after", 1..) => Some(Call::After(line)),
        (b"save", 1) if number <= BUFFER as u64 => Some(Call::Save(number as usize)),
        _ => None,
    }
}

// The first entry of a script, and what follows it.
fn first_entry(script: &[u8]) -> Option<(Entry<'_>, &[u8])>
    ensures shorter { IfSome result (λ r. length r.1.now < length script.now) }
    ensures parts { IfSome result (λ r. EntryAt script.now r.0.text.now r.1.now) }
{
    let end = script.iter().position(|byte| *byte == b'\n')?;
    let line = &script[..end];
    let equals = line
        .iter()
        .position(|byte| *byte == b'=')
        .unwrap_or(line.len());
    let numbers = numbers_in(&line[equals..])?;
    let call = call_of(&line[..equals], numbers)?;
    let taken = match call {
        Call::Save(_) => 0,
        _ => numbers.numbers[0] as usize,
    };
    let (text, rest) = script[end + 1..].split_at_checked(taken)?;
    Some((Entry { call, text }, rest))
}

impl<'a> Entries<'a> {
    pub fn new(script: &'a [u8]) -> Self
        ensures { result.at ≡ 0 }
    {
        Entries { script, at: 0 }
    }
}

impl<'a> Iterator for Entries<'a> {
    type Item = Result<Entry<'a>, usize>;

    ghost next_gives = { λ s r t. (t.script.now ≡ s.script.now) × IfSome r (λ made. MatchResult made
        (λ entry. EntryAt (drop s.at s.script.now) entry.text.now (drop t.at s.script.now))
        (λ bad. (bad ≡ s.at) × (t.at ≡ length s.script.now))) };

    ghost remaining = { λ s. at_most (length s.script.now - s.at) };

    fn next(&mut self) -> Option<Result<Entry<'a>, usize>> {
        let at = self.at;
        if at == self.script.len() {
            return None;
        }
        let Some((entry, rest)) = first_entry(&self.script[at..]) else {
            self.at = self.script.len();
            return Some(Err(at));
        };
        self.at = self.script.len() - rest.len();
        Some(Ok(entry))
    }
}
