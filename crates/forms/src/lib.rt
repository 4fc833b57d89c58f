// The table of forms: of each kind of line its key, how many numbers it has and their bounds, its order, and how many lines there may be.
#![tactic(auto)]

ghost use Rattle.std.specs.Prelude.{◌≡◌};
ghost use Rattle.forms.specs.Forms.{kind_of, packed_form, key_number};

use graph::instance::PackedInstance;
use graph::packing::{
    ARM_NAME, GROUPS, KINDS, NODE_NUMBER, NODE_NUMBERS, NUMBERS, VALUE_ROOM, VALUES,
};
use graph::pattern::PackedPattern;
use graph::rule::{Operation, PackedAction};
use graph::scheme::PackedScheme;

// The kinds of line of a drawing file, in the order of their turns; then those of a rule text.
// Kept: one enum for both texts, since one table has their forms and one order their turns; two enums would say form and order twice.
#[derive(Clone, Copy, PartialEq, Eq, PartialOrd, Ord)]
pub enum LineKind {
    Class,
    Name,
    May,
    Node,
    Edge,
    Op,
    Pnode,
    Pedge,
    Make,
    Arm,
    Put,
    Drop,
    Cut,
    Group,
}

// `key` is the key's bytes, `letters` in number, as one number after a 1, in base 256. A line's numbers are kept as one number, its row: `room`
// is how many values a number has room for there. Lines of one kind rise by their rows divided by `by`, or stand in any order. `most` is how many there
// may be, where that is limited.
// Kept: arrays of four with a count, and a key as the number that `key_of` gives: `form` promises `packed_form`, the definition, as one copied value.
#[derive(Clone, Copy)]
pub struct Form {
    pub key: u64,
    pub letters: usize,
    pub numbers: usize,
    pub below: [u32; Form::NUMBERS],
    pub room: [u64; Form::NUMBERS],
    pub by: Option<u64>,
    pub most: Option<usize>,
}

impl Form {
    // The most numbers that a line has, and the most bytes that a key has.
    pub const NUMBERS: usize = 4;

    pub const KEY_BYTES: usize = 5;
}

// What a line's numbers stay below: a class's or a name's, a kind, a node's number, a value, a pattern node's place, a code.
const NUMBER_BOUND: u32 = NUMBERS as u32;

const KIND_BOUND: u32 = KINDS as u32;

const NODE_BOUND: u32 = NODE_NUMBERS as u32;

const VALUE_BOUND: u32 = VALUES as u32;

const PNODE_BOUND: u32 = PackedPattern::NODES as u32;

const CODE_BOUND: u32 = Operation::CODES as u32;

// class=number,kind
const CLASS_FORM: Form = Form {
    key: 0x1_63_6c_61_73_73,
    letters: 5,
    numbers: 2,
    below: [NUMBER_BOUND, KIND_BOUND, 0, 0],
    room: [NUMBERS, KINDS, 0, 0],
    by: Some(KINDS),
    most: None,
};

// name=number,kind
const NAME_FORM: Form = Form {
    key: 0x1_6e_61_6d_65,
    letters: 4,
    numbers: 2,
    below: [NUMBER_BOUND, KIND_BOUND, 0, 0],
    room: [NUMBERS, KINDS, 0, 0],
    by: Some(KINDS),
    most: None,
};

// may=class,name,class
const MAY_FORM: Form = Form {
    key: 0x1_6d_61_79,
    letters: 3,
    numbers: 3,
    below: [NUMBER_BOUND, NUMBER_BOUND, NUMBER_BOUND, 0],
    room: [NODE_NUMBERS, NUMBERS, NODE_NUMBERS, 0],
    by: Some(1),
    most: Some(PackedScheme::PERMITTED),
};

// node=number,class,value
const NODE_FORM: Form = Form {
    key: 0x1_6e_6f_64_65,
    letters: 4,
    numbers: 3,
    below: [NODE_BOUND, NUMBER_BOUND, VALUE_BOUND, 0],
    room: [NODE_NUMBERS, NUMBERS, VALUE_ROOM, 0],
    by: Some(NODE_NUMBER),
    most: Some(PackedInstance::NODES),
};

// edge=source,name,target
const EDGE_FORM: Form = Form {
    key: 0x1_65_64_67_65,
    letters: 4,
    numbers: 3,
    below: [NODE_BOUND, NUMBER_BOUND, NODE_BOUND, 0],
    room: [NODE_NUMBERS, NUMBERS, NODE_NUMBERS, 0],
    by: Some(1),
    most: Some(PackedInstance::EDGES),
};

// op=code
const OP_FORM: Form = Form {
    key: 0x1_6f_70,
    letters: 2,
    numbers: 1,
    below: [CODE_BOUND, 0, 0, 0],
    room: [NODE_NUMBERS, 0, 0, 0],
    by: Some(NODE_NUMBERS),
    most: None,
};

// pnode=class,given,value
const PNODE_FORM: Form = Form {
    key: 0x1_70_6e_6f_64_65,
    letters: 5,
    numbers: 3,
    below: [NUMBER_BOUND, KIND_BOUND, VALUE_BOUND, 0],
    room: [NUMBERS, KINDS, VALUE_ROOM, 0],
    by: None,
    most: Some(PackedPattern::NODES),
};

// pedge=node,name,node
const PEDGE_FORM: Form = Form {
    key: 0x1_70_65_64_67_65,
    letters: 5,
    numbers: 3,
    below: [PNODE_BOUND, NUMBER_BOUND, PNODE_BOUND, 0],
    room: [NODE_NUMBERS, NUMBERS, NODE_NUMBERS, 0],
    by: Some(1),
    most: Some(PackedPattern::EDGES),
};

// make=class
const MAKE_FORM: Form = Form {
    key: 0x1_6d_61_6b_65,
    letters: 4,
    numbers: 1,
    below: [NUMBER_BOUND, 0, 0, 0],
    room: [NUMBERS, 0, 0, 0],
    by: Some(NUMBERS),
    most: None,
};

// arm=name,node
const ARM_FORM: Form = Form {
    key: 0x1_61_72_6d,
    letters: 3,
    numbers: 2,
    below: [NUMBER_BOUND, PNODE_BOUND, 0, 0],
    room: [NUMBERS, NODE_NUMBERS, 0, 0],
    by: Some(ARM_NAME),
    most: Some(PackedAction::PARTS),
};

// put=node,name,node
const PUT_FORM: Form = Form {
    key: 0x1_70_75_74,
    letters: 3,
    numbers: 3,
    below: [PNODE_BOUND, NUMBER_BOUND, PNODE_BOUND, 0],
    room: [NODE_NUMBERS, NUMBERS, NODE_NUMBERS, 0],
    by: Some(1),
    most: Some(PackedAction::PARTS),
};

// drop=node
const DROP_FORM: Form = Form {
    key: 0x1_64_72_6f_70,
    letters: 4,
    numbers: 1,
    below: [PNODE_BOUND, 0, 0, 0],
    room: [NODE_NUMBERS, 0, 0, 0],
    by: Some(NODE_NUMBERS),
    most: None,
};

// cut=node,name,node
const CUT_FORM: Form = Form {
    key: 0x1_63_75_74,
    letters: 3,
    numbers: 3,
    below: [PNODE_BOUND, NUMBER_BOUND, PNODE_BOUND, 0],
    room: [NODE_NUMBERS, NUMBERS, NODE_NUMBERS, 0],
    by: Some(1),
    most: Some(PackedAction::PARTS),
};

// group=p,K,a,b
const GROUP_FORM: Form = Form {
    key: 0x1_67_72_6f_75_70,
    letters: 5,
    numbers: 4,
    below: [PNODE_BOUND, NUMBER_BOUND, NUMBER_BOUND, NUMBER_BOUND],
    room: [NODE_NUMBERS, NUMBERS, NUMBERS, NUMBERS],
    by: Some(GROUPS),
    most: None,
};

impl LineKind {
    pub const DRAWING: [LineKind; 5] = [
        LineKind::Class,
        LineKind::Name,
        LineKind::May,
        LineKind::Node,
        LineKind::Edge,
    ];

    pub const RULE: [LineKind; 9] = [
        LineKind::Op,
        LineKind::Pnode,
        LineKind::Pedge,
        LineKind::Make,
        LineKind::Arm,
        LineKind::Put,
        LineKind::Drop,
        LineKind::Cut,
        LineKind::Group,
    ];

    #[tactic(auto, unfolding(crate::specs::Forms::kind_of, crate::specs::Forms::key_number, crate::specs::Forms::packed_form))]
    pub fn form(self) -> Form
        ensures { result ≡ packed_form (kind_of self) }
    {
        match self {
            LineKind::Class => CLASS_FORM,
            LineKind::Name => NAME_FORM,
            LineKind::May => MAY_FORM,
            LineKind::Node => NODE_FORM,
            LineKind::Edge => EDGE_FORM,
            LineKind::Op => OP_FORM,
            LineKind::Pnode => PNODE_FORM,
            LineKind::Pedge => PEDGE_FORM,
            LineKind::Make => MAKE_FORM,
            LineKind::Arm => ARM_FORM,
            LineKind::Put => PUT_FORM,
            LineKind::Drop => DROP_FORM,
            LineKind::Cut => CUT_FORM,
            LineKind::Group => GROUP_FORM,
        }
    }
}

// How many bytes there are.
pub const BYTES: u64 = 256;

// A key's bytes as one number; 0 where they are more than any key has.
// Kept: 0 in place of None, which no form's key is: the number of any bytes is defined, and the call can't fail.
pub fn key_of(s: &[u8]) -> u64
    ensures { result ≡ key_number s.now }
{
    if Form::KEY_BYTES < s.len() {
        return 0;
    }
    let mut key: u64 = 1;
    for byte in s {
        key = key * BYTES + *byte as u64;
    }
    key
}
