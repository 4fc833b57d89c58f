// The table of "When the engine declines", row by row: the number of a refusal, and what the call returns with it.
// Apart from the definitions: a match of fourteen arms takes longer to prove than any law on them.
#![tactic(auto)]

ghost use Rattle.std.specs.Prelude.{◌≡◌};
ghost use Rattle.model.specs.Refusals.{table_row};

use model::{Refusal, Row};

// The number that document 01 gives the refusal; beside it a line, a node, a length, or 0.
// Kept: a function and no `From`, which would have to stand in `model`, and be proved with all that use it.
pub fn row(refusal: Refusal) -> Row
    ensures { result ≡ table_row refusal }
{
    let (number, returned) = match refusal {
        Refusal::Malformed { line } => (1, line),
        Refusal::TooMany { line } => (2, line),
        Refusal::Undeclared { line } => (3, line),
        Refusal::Nonconforming { line } => (4, line),
        Refusal::BadAction { line } => (5, line),
        Refusal::NotOpen => (6, 0),
        Refusal::AlreadyOpen => (7, 0),
        Refusal::NoCopy => (8, 0),
        Refusal::NodesFull => (9, 0),
        Refusal::NumbersFull => (10, 0),
        Refusal::EdgesFull => (11, 0),
        Refusal::FunctionalClash { node } => (12, node),
        Refusal::BufferShort { needed } => (13, needed),
        Refusal::LengthDiffers { length } => (14, length),
    };
    Row { number, returned }
}
