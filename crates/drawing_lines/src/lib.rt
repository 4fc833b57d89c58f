// A line of a drawing file under what the lines above it hold: in its place, not one too many, and then as its own checks say.
#![tactic(auto)]

ghost use Rattle.std.specs.Prelude.{◌≡◌, true, [], ◌∷◌, map, ◌<◌, ◌^◌};
ghost use Rattle.lists.specs.Order.{rising};
ghost use Rattle.model.specs.Files.DrawingFile.{drawing_format};
ghost use Rattle.model.specs.InForm.{LineInForm};
ghost use Rattle.forms.specs.Forms.{of_drawing, drawing_key};
ghost use Rattle.text.specs.Lines.{drawing_line};
ghost use Rattle.graph.specs.Packed.{unpack_triple, unpack_node, unpack_scheme, unpack_instance, scheme_of};
ghost use Rattle.verdicts.specs.Verdicts.{judged, scheme_above, instance_above};
ghost use Rattle.standing.specs.Held.{Held, Fits};
ghost use Rattle.drawing_lines.specs.DrawingLines.{may_checks, node_checks, edge_checks, line_checks, lines_above, drawing_verdict, Coming};

use forms::LineKind;
use graph::declarations::Declarations;
use graph::instance::node_at;
use graph::packing::{NODE_CLASS, NODE_NUMBER, NUMBERS, TRIPLE_NAME, TRIPLE_SOURCE};
use keys::{Rising, shares};
use model::Refusal;
use standing::Drawing;
use text::lines::{Last, Line, crowded, follows};
use verdicts::above::Above;
use verdicts::edge_conforms;

#[tactic(auto, using(verdicts::proofs::Laws::Tests::Judging), unfolding(crate::specs::DrawingLines::may_checks))]
fn check_may(above: &Above, triple: u64, line: u64) -> Result<(), Refusal>
    requires { ((unpack_triple triple).source < 2 ^ 6) × ((unpack_triple triple).target < 2 ^ 6) }
    ensures { result ≡ judged line (may_checks (scheme_above above.now) (unpack_triple triple)) }
{
    let source = triple / TRIPLE_SOURCE;
    let name = triple / TRIPLE_NAME % NUMBERS;
    let target = triple % TRIPLE_NAME;
    let classes = above.classes;
    if !classes.declares(source) || !above.names.declares(name) || !classes.declares(target) {
        return Err(Refusal::Undeclared { line });
    }
    if classes.of_kind(Declarations::VALUE, source) {
        return Err(Refusal::Nonconforming { line });
    }
    Ok(())
}

// A value is looked for among all nodes above: values of one class stand in no order.
fn check_node(above: &Above, node: u64, line: u64) -> Result<(), Refusal>
    ensures { result ≡ judged line (node_checks (scheme_above above.now) (instance_above above.now).nodes (unpack_node node)) }
{
    let class = node / NODE_CLASS % NUMBERS;
    if !above.classes.declares(class) {
        return Err(Refusal::Undeclared { line });
    }
    if above.classes.of_kind(Declarations::OBJECT, class) {
        if node % NODE_CLASS != 0 {
            return Err(Refusal::Nonconforming { line });
        }
    } else if shares(above.nodes, node, NODE_NUMBER) {
        return Err(Refusal::Nonconforming { line });
    }
    Ok(())
}

// Kept: `above`, row and line one by one: a struct of the three would be made and taken apart at each call.
fn check_edge(above: &Above, edge: u64, line: u64) -> Result<(), Refusal>
    requires nodes_value { rising (map (λ n. n.number ∷ []) (map unpack_node above.now.nodes.now)) ≡ true }
    requires edge_bound { (unpack_triple edge).source < 2 ^ 16 }
    ensures { result ≡ judged line (edge_checks (scheme_above above.now) (instance_above above.now) (unpack_triple edge)) }
{
    let undeclared = Refusal::Undeclared { line };
    let source = node_at(above.nodes, edge / TRIPLE_SOURCE).ok_or(undeclared)?;
    if !above.names.declares(edge / TRIPLE_NAME % NUMBERS) {
        return Err(undeclared);
    }
    let target = node_at(above.nodes, edge % TRIPLE_NAME).ok_or(undeclared)?;
    let source_class = source / NODE_CLASS % NUMBERS;
    let target_class = target / NODE_CLASS % NUMBERS;
    if !edge_conforms(above, source_class, edge, target_class) {
        return Err(Refusal::Nonconforming { line });
    }
    Ok(())
}

// Causes 3 to 5 of a line, by its kind.
fn check_row(above: &Above, l: Line, line: u64) -> Result<(), Refusal>
    requires nodes_value { rising (map (λ n. n.number ∷ []) (map unpack_node above.now.nodes.now)) ≡ true }
    requires in_form { (of_drawing l.kind ≡ true) × LineInForm drawing_format (drawing_line l) }
    ensures { result ≡ judged line (line_checks (scheme_above above.now) (instance_above above.now) (drawing_key l.kind) l.row) }
{
    match l.kind {
        LineKind::May => check_may(above, l.row, line),
        LineKind::Node => check_node(above, l.row, line),
        LineKind::Edge => check_edge(above, l.row, line),
        _ => Ok(()),
    }
}

// How many lines of the kind stand above, of those that document 01 limits: as many as their keys.
// Kept: alone with the kinds of a drawing file: that of `rule_lines` counts other lines, in another stored value.
fn lines_above(drawing: &Drawing, kind: LineKind) -> usize
    requires { Fits drawing.now }
    ensures { result ≡ lines_above (unpack_scheme drawing.now.scheme) (unpack_instance drawing.now.instance) (drawing_key kind) }
{
    match kind {
        LineKind::May => drawing.scheme.permissions,
        LineKind::Node => drawing.instance.order,
        LineKind::Edge => drawing.instance.size,
        _ => 0,
    }
}

// A line of a drawing file under what the lines above it hold.
pub fn check_line(drawing: &Drawing, last: Last, l: Line) -> Result<(), Refusal>
    requires held { Held drawing.now }
    requires coming { Coming last l }
    ensures { result ≡ drawing_verdict (unpack_scheme drawing.now.scheme) (unpack_instance drawing.now.instance) last l }
{
    let line = last.lines + 1;
    if !follows(last.line, l) {
        return Err(Refusal::Malformed { line });
    }
    if crowded(l.kind, lines_above(drawing, l.kind)) {
        return Err(Refusal::TooMany { line });
    }
    let scheme = &drawing.scheme;
    let instance = &drawing.instance;
    let above = Above {
        classes: scheme.classes,
        names: scheme.names,
        permitted: Rising {
            keys: &scheme.permitted[..scheme.permissions],
        },
        nodes: &instance.nodes[..instance.order],
        edges: &instance.edges[..instance.size],
    };
    check_row(&above, l, line)
}
