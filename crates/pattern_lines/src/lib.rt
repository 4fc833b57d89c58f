// A line of a pattern under the pattern above it: what it declares and conforms to, causes 3 and 4.
#![tactic(auto)]

ghost use Rattle.std.specs.Prelude.{◌≡◌, [], ◌<◌, length, get_or};
ghost use Rattle.graph.specs.Packed.{unpack_triple, scheme_of, pattern_of, unpack_pattern_node};
ghost use Rattle.verdicts.specs.Verdicts.{judged, scheme_above, pattern_above};
ghost use Rattle.pattern_lines.specs.PatternLines.{knows, pnode_checks, pedge_checks};

use graph::declarations::Declarations;
use graph::packing::{
    KINDS, NUMBERS, PNODE_CLASS, PNODE_GIVEN, PNODES, TRIPLE_NAME, TRIPLE_SOURCE,
};
use keys::shares;
use model::Refusal;
use verdicts::above::Above;
use verdicts::edge_conforms;

// Kept: classes and nodes one by one: `Above` would ask callers for permitted triples that rise too.
#[tactic(auto, using(verdicts::proofs::Laws::Tests::Judging, crate::specs::Laws::PatternChecks::PatternTests), unfolding(crate::specs::PatternLines::pnode_checks))]
pub fn check_pnode(
    classes: Declarations,
    nodes: &[u64],
    node: u64,
    line: u64,
) -> Result<(), Refusal>
    ensures { result ≡ judged line (pnode_checks (scheme_of classes classes []) (pattern_of nodes.now []) (unpack_pattern_node 0 node)) }
{
    let class = node / PNODE_CLASS % NUMBERS;
    if !classes.declares(class) {
        return Err(Refusal::Undeclared { line });
    }
    let given = node / PNODE_GIVEN % KINDS == 1;
    if given && (classes.of_kind(Declarations::OBJECT, class) || shares(nodes, node, PNODES)) {
        return Err(Refusal::Nonconforming { line });
    }
    Ok(())
}

// Whether the edge's name is declared, and its ends are pattern nodes above.
pub fn edge_known(names: Declarations, nodes: &[u64], edge: u64) -> bool
    ensures { result ≡ knows (scheme_of names names []) (pattern_of nodes.now []) (unpack_triple edge) }
{
    let order = nodes.len() as u64;
    edge / TRIPLE_SOURCE < order
        && names.declares(edge / TRIPLE_NAME % NUMBERS)
        && edge % TRIPLE_NAME < order
}

pub fn class_at(nodes: &[u64], i: usize) -> u64
    requires { i < length nodes.now }
    ensures { result ≡ (unpack_pattern_node i (get_or nodes.now i 0)).class }
{
    nodes[i] / PNODE_CLASS % NUMBERS
}

// Kept: `above`, row and line one by one: a struct of the three would be made and taken apart at each call.
#[tactic(auto, using(verdicts::proofs::Laws::Tests::Judging, crate::specs::Laws::PatternChecks::PatternTests), unfolding(crate::specs::PatternLines::pedge_checks))]
// Kept: two classes are looked up here and in `check_put`, in three lines: a helper would give them as a pair with a contract of its own.
pub fn check_pedge(above: &Above, edge: u64, line: u64) -> Result<(), Refusal>
    ensures { result ≡ judged line (pedge_checks (scheme_above above.now) (pattern_above above.now) (unpack_triple edge)) }
{
    if !edge_known(above.names, above.nodes, edge) {
        return Err(Refusal::Undeclared { line });
    }
    let source = class_at(above.nodes, (edge / TRIPLE_SOURCE) as usize);
    let target = class_at(above.nodes, (edge % TRIPLE_NAME) as usize);
    if !edge_conforms(above, source, edge, target) {
        return Err(Refusal::Nonconforming { line });
    }
    Ok(())
}
