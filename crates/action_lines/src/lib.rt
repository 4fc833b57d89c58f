// A line of an action under the pattern above it: what it declares and suits, causes 3 and 5, by a function for each kind of line.
#![tactic(auto)]

ghost use Rattle.std.specs.Prelude.{◌≡◌, ◌&&◌, [], ◌<◌};
ghost use Rattle.model.specs.Limits;
ghost use Rattle.model.specs.Graph.{declares, of_kind, stands};
ghost use Rattle.graph.specs.Packed.{unpack_triple, unpack_arm, unpack_declared, scheme_of, pattern_of};
ghost use Rattle.verdicts.specs.Verdicts.{judged, scheme_above, pattern_above};
ghost use Rattle.action_lines.specs.ActionLines.{make_checks, arm_checks, put_checks, drop_checks, cut_checks, group_checks};

use graph::declarations::Declarations;
use graph::packing::{
    ARM_NAME, GROUP_A, GROUP_CLASS, GROUP_NODE, NUMBERS, TRIPLE_NAME, TRIPLE_SOURCE,
};
use graph::scheme::permits;
use keys::Rising;
use model::Refusal;
use pattern_lines::{class_at, edge_known};
use verdicts::above::Above;

// Kept: the sets alone, as in `check_drop` and `check_cut` what each looks at: `Above` would ask callers for permitted triples that rise too.
#[tactic(auto, using(verdicts::proofs::Laws::Tests::Judging), unfolding(crate::specs::ActionLines::make_checks))]
pub fn check_make(classes: Declarations, class: u64, line: u64) -> Result<(), Refusal>
    requires { class < Limits.classes }
    ensures { result ≡ judged line (make_checks (scheme_of classes classes []) class) }
{
    if !classes.declares(class) {
        return Err(Refusal::Undeclared { line });
    }
    if !classes.of_kind(Declarations::OBJECT, class) {
        return Err(Refusal::BadAction { line });
    }
    Ok(())
}

// `class` is that of the make line above.
// Kept: a class below 64 is asked as a clause: a type of such numbers would ask callers to make it of each row.
#[tactic(auto, using(verdicts::proofs::Laws::Tests::Judging, pattern_lines::specs::Laws::PatternChecks::PatternTests), unfolding(crate::specs::ActionLines::arm_checks))]
pub fn check_arm(above: &Above, class: u64, arm: u64, line: u64) -> Result<(), Refusal>
    requires { (class < Limits.classes) × ((unpack_arm arm).name < Limits.names) }
    ensures { result ≡ judged line (arm_checks (scheme_above above.now) (pattern_above above.now) class (unpack_arm arm)) }
{
    let name = arm / ARM_NAME;
    let node = arm % ARM_NAME;
    if !above.names.declares(name) || above.nodes.len() as u64 <= node {
        return Err(Refusal::Undeclared { line });
    }
    let target = class_at(above.nodes, node as usize);
    if !above.names.of_kind(Declarations::FUNCTIONAL, name)
        || !permits(above.permitted, class, name, target)
    {
        return Err(Refusal::BadAction { line });
    }
    Ok(())
}

// Kept: `above`, row and line one by one: a struct of the three would be made and taken apart at each call.
#[tactic(auto, using(verdicts::proofs::Laws::Tests::Judging, pattern_lines::specs::Laws::PatternChecks::PatternTests), unfolding(crate::specs::ActionLines::put_checks))]
pub fn check_put(above: &Above, edge: u64, line: u64) -> Result<(), Refusal>
    ensures { result ≡ judged line (put_checks (scheme_above above.now) (pattern_above above.now) (unpack_triple edge)) }
{
    if !edge_known(above.names, above.nodes, edge) {
        return Err(Refusal::Undeclared { line });
    }
    let source = class_at(above.nodes, (edge / TRIPLE_SOURCE) as usize);
    let target = class_at(above.nodes, (edge % TRIPLE_NAME) as usize);
    let name = edge / TRIPLE_NAME % NUMBERS;
    if !permits(above.permitted, source, name, target) {
        return Err(Refusal::BadAction { line });
    }
    Ok(())
}

// Kept: the nodes alone, as the sets in `check_make`.
#[tactic(auto, using(verdicts::proofs::Laws::Tests::Judging, pattern_lines::specs::Laws::PatternChecks::PatternTests), unfolding(crate::specs::ActionLines::drop_checks))]
pub fn check_drop(nodes: &[u64], node: u64, line: u64) -> Result<(), Refusal>
    ensures { result ≡ judged line (drop_checks (pattern_of nodes.now []) node) }
{
    if nodes.len() as u64 <= node {
        return Err(Refusal::Undeclared { line });
    }
    Ok(())
}

// Kept: names, nodes and edges one by one, as the sets in `check_make`.
#[tactic(auto, using(verdicts::proofs::Laws::Tests::Judging, pattern_lines::specs::Laws::PatternChecks::PatternTests), unfolding(crate::specs::ActionLines::cut_checks))]
pub fn check_cut(
    names: Declarations,
    nodes: &[u64],
    edges: Rising,
    edge: u64,
    line: u64,
) -> Result<(), Refusal>
    ensures { result ≡ judged line (cut_checks (scheme_of names names []) (pattern_of nodes.now edges.entry.keys.now) (unpack_triple edge)) }
{
    if !edge_known(names, nodes, edge) {
        return Err(Refusal::Undeclared { line });
    }
    if !edges.has(edge) {
        return Err(Refusal::BadAction { line });
    }
    Ok(())
}

#[tactic(auto, using(verdicts::proofs::Laws::Tests::Judging, pattern_lines::specs::Laws::PatternChecks::PatternTests), unfolding(crate::specs::ActionLines::group_checks))]
pub fn check_group(above: &Above, group: u64, line: u64) -> Result<(), Refusal>
    ensures { result ≡ judged line (group_checks (scheme_above above.now) (pattern_above above.now) group) }
{
    let node = group / GROUP_NODE;
    let class = group / GROUP_CLASS % NUMBERS;
    let a = group / GROUP_A % NUMBERS;
    let b = group % NUMBERS;
    if !group_known(above, node, class, a, b) {
        return Err(Refusal::Undeclared { line });
    }
    let target = class_at(above.nodes, node as usize);
    if !group_suits(above, class, a, b) || !permits(above.permitted, class, b, target) {
        return Err(Refusal::BadAction { line });
    }
    Ok(())
}

// Whether the pattern node stands above, and the class and both names are declared.
// Kept: class and names one by one, here and in `group_suits`: a struct of them would be taken apart again at once, each for a set of its own.
fn group_known(above: &Above, node: u64, class: u64, a: u64, b: u64) -> bool
    requires { (class < Limits.classes) × (a < Limits.names) × (b < Limits.names) }
    ensures { result
        ≡ (stands (pattern_above above.now) node
        && declares (unpack_declared above.now.classes) class
        && declares (unpack_declared above.now.names) a
        && declares (unpack_declared above.now.names) b) }
{
    node < above.nodes.len() as u64
        && above.classes.declares(class)
        && above.names.declares(a)
        && above.names.declares(b)
}

// "object class K, multivalued names a and b"
fn group_suits(above: &Above, class: u64, a: u64, b: u64) -> bool
    requires { (class < Limits.classes) × (a < Limits.names) × (b < Limits.names) }
    ensures { result
        ≡ (of_kind 0 (unpack_declared above.now.classes) class
        && of_kind 1 (unpack_declared above.now.names) a
        && of_kind 1 (unpack_declared above.now.names) b) }
{
    above.classes.of_kind(Declarations::OBJECT, class)
        && above.names.of_kind(Declarations::MULTIVALUED, a)
        && above.names.of_kind(Declarations::MULTIVALUED, b)
}
