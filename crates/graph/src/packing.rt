// How numbers are packed into a stored key, and how many values each has room for. A number is got by dividing by its constant, and by what is
// left of its room; the last by what is left alone. specs/Packed.antt says the same as definitions.

// Classes and edge names are numbered below this.
pub const NUMBERS: u64 = 64;

// Kinds of classes and names, and whether a value is given.
pub const KINDS: u64 = 2;

// Nodes are numbered below this. A value of a line is below VALUES, and has more room in a key.
pub const NODE_NUMBERS: u64 = 65536;

pub const VALUES: u64 = 65536;

pub const VALUE_ROOM: u64 = 4294967296;

// A triple: source, name, target.
pub const TRIPLE_SOURCE: u64 = TRIPLE_NAME * NUMBERS;

pub const TRIPLE_NAME: u64 = NODE_NUMBERS;

// A node: number, class, value.
pub const NODE_NUMBER: u64 = NODE_CLASS * NUMBERS;

pub const NODE_CLASS: u64 = VALUE_ROOM;

// A pattern node: class, given, value. Its keys stay below PNODES.
pub const PNODES: u64 = PNODE_CLASS * NUMBERS;

pub const PNODE_CLASS: u64 = PNODE_GIVEN * KINDS;

pub const PNODE_GIVEN: u64 = VALUE_ROOM;

// An arm: name, pattern node.
pub const ARM_NAME: u64 = NODE_NUMBERS;

// A group line: p, K, a, b.
pub const GROUPS: u64 = GROUP_NODE * NODE_NUMBERS;

pub const GROUP_NODE: u64 = GROUP_CLASS * NUMBERS;

pub const GROUP_CLASS: u64 = GROUP_A * NUMBERS;

pub const GROUP_A: u64 = NUMBERS;
