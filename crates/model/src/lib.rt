// What a call answers: a `Result` for each call, whose error is the refusal enum. A refusal's number and what is returned with it are `table_row`
// (specs/Refusals.antt), and in code `table`.
#![tactic(auto)]

ghost use Rattle.std.specs.Prelude.{Some, [], ◌∷◌};
ghost use Rattle.model.specs.Files.{commas};
ghost use Rattle.model.specs.Record.{counted, report_numbers};

use std::fmt;

// The fourteen rows of "When the engine declines", in their order, each with what the call returns.
#[derive(Clone, Copy)]
pub enum Refusal {
    Malformed { line: u64 },
    TooMany { line: u64 },
    Undeclared { line: u64 },
    Nonconforming { line: u64 },
    BadAction { line: u64 },
    NotOpen,
    AlreadyOpen,
    NoCopy,
    NodesFull,
    NumbersFull,
    EdgesFull,
    FunctionalClash { node: u64 },
    BufferShort { needed: u64 },
    LengthDiffers { length: u64 },
}

// A row of the table: the number of a refusal, and what the call returns with it. It prints as the numbers of a line.
// Kept: two numbers as `Opened` and `Difference` are, of another meaning; one type for all would take the one for the other.
#[derive(Clone, Copy)]
pub struct Row {
    pub number: u64,
    pub returned: u64,
}

impl fmt::Display for Row {
    ghost output = { λ row. Some (commas (row.number ∷ row.returned ∷ [])) };

    fn fmt<W: fmt::Write>(&self, f: &mut fmt::Formatter<W>) -> fmt::Result {
        let Row { number, returned } = *self;
        write!(f, "{number},{returned}")
    }
}

// Open reports how many classes and how many names were declared.
// Kept: two numbers as those of `Row`, of another meaning.
#[derive(Clone, Copy)]
pub struct Opened {
    pub classes: u64,
    pub names: u64,
}

impl fmt::Display for Opened {
    ghost output = { λ o. Some (commas (o.classes ∷ o.names ∷ [])) };

    fn fmt<W: fmt::Write>(&self, f: &mut fmt::Formatter<W>) -> fmt::Result {
        let Opened { classes, names } = *self;
        write!(f, "{classes},{names}")
    }
}

// How many nodes and edges one of two instances has and the other has not.
// Kept: two numbers as those of `Row`, of another meaning.
#[repr(C)]
#[derive(Clone, Copy)]
pub struct Difference {
    pub nodes: u64,
    pub edges: u64,
}

// Apply reports the matchings of the old instance, what only the new one has, and what only the old one has.
#[repr(C)]
#[derive(Clone, Copy)]
pub struct Counts {
    pub matchings: u64,
    pub added: Difference,
    pub removed: Difference,
}

impl Counts {
    // What a refused apply reports.
    pub const NONE: Counts = Counts {
        matchings: 0,
        added: Difference { nodes: 0, edges: 0 },
        removed: Difference { nodes: 0, edges: 0 },
    };
}

impl fmt::Display for Counts {
    ghost output = { λ c. Some (commas (report_numbers (counted c))) };

    fn fmt<W: fmt::Write>(&self, f: &mut fmt::Formatter<W>) -> fmt::Result {
        let Counts { matchings, .. } = *self;
        let Difference { nodes, edges } = self.added;
        let Difference {
            nodes: removed_nodes,
            edges: removed_edges,
        } = self.removed;
        write!(
            f,
            "{matchings},{nodes},{edges},{removed_nodes},{removed_edges}"
        )
    }
}

pub type OpenAnswer = Result<Opened, Refusal>;

pub type ApplyAnswer = Result<Counts, Refusal>;

// Undo and close report nothing.
pub type StepAnswer = Result<(), Refusal>;

// Save reports the file's length in bytes.
pub type SaveAnswer = Result<u64, Refusal>;
