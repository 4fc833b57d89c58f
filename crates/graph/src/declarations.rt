// Declared classes or edge names, as sets of numbers.
ghost use Rattle.std.specs.Prelude.{◌≡◌, true, ltb, length, ◌<◌, ◌≤◌, ◌%◌};
ghost use Rattle.lists.specs.Lists.{all};
ghost use Rattle.model.specs.Limits;
ghost use Rattle.model.specs.Graph.{declares, of_kind};
ghost use Rattle.keys.specs.Keys.{Front};
ghost use Rattle.graph.specs.Kinds.{kind_number};
ghost use Rattle.graph.specs.Packed.{unpack_declared, declared_rows, Snug, FreshDeclarations, DeclaredWith};

use crate::packing::{KINDS, NUMBERS};

// A class is of kind 0 (object) or 1 (value), an edge name of kind 0 (functional) or 1 (multivalued).
// Kept: one enum for both, since sets of classes and of names are one type; the constants of `Declarations` name its values for each.
#[derive(Clone, Copy, PartialEq, Eq)]
pub enum Kind {
    First,
    Second,
}

impl Kind {
    // The kind whose number is the last binary digit.
    pub fn of(n: u64) -> Kind
        ensures { kind_number result ≡ n % Limits.kinds }
    {
        if n % KINDS == 0 {
            Kind::First
        } else {
            Kind::Second
        }
    }
}

impl From<Kind> for u64 {
    ghost from_gives = { λ kind n. n ≡ kind_number kind };

    fn from(kind: Kind) -> u64 {
        match kind {
            Kind::First => 0,
            Kind::Second => 1,
        }
    }
}

// Bit n stands for number n. `second` are those of kind 1: value classes, or multivalued names.
// Kept: a type of its own beside others of two numbers, since these are sets; C lays them out.
#[repr(C)]
#[derive(Clone, Copy)]
pub struct Declarations {
    pub declared: u64,
    pub second: u64,
}

impl Declarations {
    // Kinds of classes, and kinds of names.
    pub const OBJECT: Kind = Kind::First;

    pub const VALUE: Kind = Kind::Second;

    pub const FUNCTIONAL: Kind = Kind::First;

    pub const MULTIVALUED: Kind = Kind::Second;

    // Kept: a constructor that promises a fresh value; by a derived `Default` it would be one call more, of the same shape in each type.
    pub fn new() -> Declarations
        ensures { FreshDeclarations result }
    {
        Declarations {
            declared: 0,
            second: 0,
        }
    }

    // Kept: `n` below 64 is asked by a clause, as in `of_kind` and `with`: a type of such numbers would ask callers to make it of each row.
    pub fn declares(self, n: u64) -> bool
        requires { n < Limits.classes }
        ensures { result ≡ declares (unpack_declared self) n }
    {
        (self.declared >> n) % KINDS == 1
    }

    pub fn of_kind(self, kind: Kind, n: u64) -> bool
        requires { n < Limits.classes }
        ensures { result ≡ of_kind (kind_number kind) (unpack_declared self) n }
    {
        self.declares(n) && Kind::of(self.second >> n) == kind
    }

    // A number above all that are declared, with its kind.
    pub fn with(self, n: u64, kind: Kind) -> Declarations
        requires n_bound { n < Limits.classes }
        requires snug { Snug self }
        requires self_value { all (λ d. ltb d.number n) (unpack_declared self) ≡ true }
        ensures { DeclaredWith self n (kind_number kind) result }
    {
        Declarations {
            declared: self.declared | 1 << n,
            second: self.second | u64::from(kind) << n,
        }
    }

    // The rows of the declared numbers, rising: number and kind.
    // Kept: a count beside the lent array: the rows that stand are picked, and there is no heap to collect them in.
    pub fn rows(self, rows: &mut [u64]) -> usize
        requires { Limits.classes ≤ length rows.old }
        ensures { Front rows.new result (declared_rows self) }
    {
        let mut count = 0;
        for n in 0..NUMBERS {
            if self.declares(n) {
                rows[count] = n * KINDS + (self.second >> n) % KINDS;
                count += 1;
            }
        }
        count
    }

    // "how many classes and how many names were declared"
    pub fn count(self) -> u64
        ensures { result ≡ length (unpack_declared self) }
    {
        u64::count_ones(self.declared) as u64
    }
}
