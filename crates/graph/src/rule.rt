// The rule as it is stored: a pattern, and an action.
ghost use Rattle.std.specs.Prelude.{◌≡◌};
ghost use Rattle.graph.specs.Operations.{Decodes, code_of};
ghost use Rattle.graph.specs.Packed.{FreshAction, FreshRule};

use crate::pattern::PackedPattern;

// What an action does.
#[derive(Clone, Copy, PartialEq, Eq)]
pub enum Operation {
    PatternOnly,
    NodeAddition,
    EdgeAddition,
    NodeDeletion,
    EdgeDeletion,
    Abstraction,
    // A number that is no operation's, so 6 or more (a smaller one counts as 6). A rule that is packed by hand may hold it; it means what `PatternOnly`
    // means, and no rule text makes it.
    Other(u64),
}

impl Operation {
    // How many a rule text has a code for: a code is below this.
    pub const CODES: u64 = 6;
}

// A number that is no operation's code.
#[derive(Clone, Copy, PartialEq, Eq)]
pub struct UnknownOperation(pub u64);

impl TryFrom<u64> for Operation {
    type Error = UnknownOperation;

    ghost try_from_gives = { Decodes };

    fn try_from(code: u64) -> Result<Self, UnknownOperation> {
        match code {
            0 => Ok(Operation::PatternOnly),
            1 => Ok(Operation::NodeAddition),
            2 => Ok(Operation::EdgeAddition),
            3 => Ok(Operation::NodeDeletion),
            4 => Ok(Operation::EdgeDeletion),
            5 => Ok(Operation::Abstraction),
            _ => Err(UnknownOperation(code)),
        }
    }
}

impl From<Operation> for u64 {
    ghost from_gives = { λ operation code. code ≡ code_of operation };

    fn from(operation: Operation) -> u64 {
        match operation {
            Operation::PatternOnly => 0,
            Operation::NodeAddition => 1,
            Operation::EdgeAddition => 2,
            Operation::NodeDeletion => 3,
            Operation::EdgeDeletion => 4,
            Operation::Abstraction => 5,
            Operation::Other(number) => number.max(Operation::CODES),
        }
    }
}

// `head` is the row of a make, drop or group line, `parts` are those of arm, put or cut lines.
// Kept: an array with its count, since an action is read without a heap, into fixed memory; and head and parts beside the operation, since a rule is read
// line by line, and they come after it.
#[derive(Clone, Copy)]
pub struct PackedAction {
    pub operation: Operation,
    pub head: u64,
    pub parts: [u64; PackedAction::PARTS],
    pub count: usize,
}

impl PackedAction {
    pub const PARTS: usize = 4;

    // Kept: a constructor that promises a fresh value; by a derived `Default` it would be one call more, of the same shape in each type.
    pub fn new() -> PackedAction
        ensures { FreshAction result }
    {
        PackedAction {
            operation: Operation::PatternOnly,
            head: 0,
            parts: [0; PackedAction::PARTS],
            count: 0,
        }
    }
}

#[derive(Clone, Copy)]
pub struct PackedRule {
    pub pattern: PackedPattern,
    pub action: PackedAction,
}

impl PackedRule {
    // Kept: a constructor that promises a fresh value; by a derived `Default` it would be one call more, of the same shape in each type.
    pub fn new() -> PackedRule
        ensures { FreshRule result }
    {
        PackedRule {
            pattern: PackedPattern::new(),
            action: PackedAction::new(),
        }
    }
}
