// Prints the table of refusals as `trial` prints a refusal, each with a returned number of its own, and then the limits that the stored
// values carry: what the shared types say when they are compiled and run.
#![tactic(auto)]

use graph::history::History;
use graph::instance::PackedInstance;
use graph::pattern::PackedPattern;
use graph::scheme::PackedScheme;
use model::Refusal;
use std::io;

const REFUSALS: [Refusal; 14] = [
    Refusal::Malformed { line: 11 },
    Refusal::TooMany { line: 12 },
    Refusal::Undeclared { line: 13 },
    Refusal::Nonconforming { line: 14 },
    Refusal::BadAction { line: 15 },
    Refusal::NotOpen,
    Refusal::AlreadyOpen,
    Refusal::NoCopy,
    Refusal::NodesFull,
    Refusal::NumbersFull,
    Refusal::EdgesFull,
    Refusal::FunctionalClash { node: 65535 },
    Refusal::BufferShort { needed: 115 },
    Refusal::LengthDiffers { length: 6 },
];

fn main(rt: HostRuntime) -> io::Result<()> {
    for refusal in REFUSALS {
        println!(rt; "refused={}", table::row(refusal))?;
    }
    let limits = [
        ("permitted", PackedScheme::PERMITTED),
        ("nodes", PackedInstance::NODES),
        ("edges", PackedInstance::EDGES),
        ("pattern nodes", PackedPattern::NODES),
        ("pattern edges", PackedPattern::EDGES),
        ("copies", History::COPIES),
    ];
    for (key, most) in limits {
        println!(rt; "{key}={most}")?;
    }
    Ok(())
}
