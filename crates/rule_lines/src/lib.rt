// A line of a rule text under what the lines above it hold, in an open scheme: in its place, not one too many, and then as its own checks say.
#![tactic(auto)]

ghost use Rattle.std.specs.Prelude.{◌≡◌, true, false};
ghost use Rattle.model.specs.InForm.{code_of as key_code};
ghost use Rattle.forms.specs.Forms.{of_drawing, rule_key};
ghost use Rattle.keys.specs.Keys.{keys_rise};
ghost use Rattle.graph.specs.Operations.{code_of};
ghost use Rattle.graph.specs.Packed.{scheme_of, unpack_pattern};
ghost use Rattle.rule_lines.specs.RuleLines.{in_action, placed, lines_above, rule_verdict, FitsRule, HeldRule, Coming, line_checks, RowFits};
ghost use Rattle.verdicts.specs.Verdicts.{judged, scheme_above, pattern_above};

use action_lines::{check_arm, check_cut, check_drop, check_group, check_make, check_put};
use forms::LineKind;
use graph::declarations::Declarations;
use graph::packing::{KINDS, PNODE_GIVEN};
use graph::rule::{Operation, PackedRule};
use keys::Rising;
use model::Refusal;
use pattern_lines::{check_pedge, check_pnode};
use text::lines::{Last, Line, crowded, follows};
use verdicts::above::Above;

// Op comes first, an action line stands under its own code, arm after make, and a value is 0 where none is given.
fn placed(last: Option<Line>, operation: Operation, l: Line) -> bool
    requires { of_drawing l.kind ≡ false }
    ensures { result ≡ placed last (code_of operation) (rule_key l.kind) l.row }
{
    match l.kind {
        LineKind::Op => true,
        LineKind::Pnode => {
            last.is_some() && (l.row / PNODE_GIVEN % KINDS == 1 || l.row % PNODE_GIVEN == 0)
        }
        LineKind::Pedge => last.is_some(),
        LineKind::Arm => in_action(last),
        _ => last.is_some() && operation == operation_of(l.kind),
    }
}

// Whether the last line above is an action line.
pub fn in_action(last: Option<Line>) -> bool
    ensures { result ≡ in_action last }
{
    last.is_some_and(|above| LineKind::Make <= above.kind)
}

// The operation under whose code an action line stands.
fn operation_of(kind: LineKind) -> Operation
    ensures { code_of result ≡ key_code (rule_key kind) }
{
    match kind {
        LineKind::Make | LineKind::Arm => Operation::NodeAddition,
        LineKind::Put => Operation::EdgeAddition,
        LineKind::Drop => Operation::NodeDeletion,
        LineKind::Cut => Operation::EdgeDeletion,
        LineKind::Group => Operation::Abstraction,
        _ => Operation::PatternOnly,
    }
}

// How many lines of the kind stand above, of those that document 01 limits.
// Kept: alone with the kinds of a rule text: that of `drawing_lines` counts other lines, in another stored value.
fn lines_above(rule: &PackedRule, kind: LineKind) -> usize
    requires { FitsRule rule.now }
    ensures { result ≡ lines_above (unpack_pattern rule.now.pattern) rule.now.action.count (rule_key kind) }
{
    match kind {
        LineKind::Pnode => rule.pattern.order,
        LineKind::Pedge => rule.pattern.size,
        _ => rule.action.count,
    }
}

// Causes 3 to 5 of a line, by its kind. `head` is the row of a make line above.
fn check_row(above: &Above, head: u64, l: Line, line: u64) -> Result<(), Refusal>
    requires edges_value { keys_rise above.now.edges.now ≡ true }
    requires row_fits { RowFits head l }
    ensures { result ≡ judged line (line_checks (scheme_above above.now) (pattern_above above.now) head (rule_key l.kind) l.row) }
{
    let row = l.row;
    match l.kind {
        LineKind::Pnode => check_pnode(above.classes, above.nodes, row, line),
        LineKind::Pedge => check_pedge(above, row, line),
        LineKind::Make => check_make(above.classes, row, line),
        LineKind::Arm => check_arm(above, head, row, line),
        LineKind::Put => check_put(above, row, line),
        LineKind::Drop => check_drop(above.nodes, row, line),
        LineKind::Cut => {
            let edges = Rising { keys: above.edges };
            check_cut(above.names, above.nodes, edges, row, line)
        }
        LineKind::Group => check_group(above, row, line),
        _ => Ok(()),
    }
}

// A line of a rule text under what the lines above it hold.
// Kept: a scheme's parts one by one, since a stored scheme would ask callers for a limit and for sets without gaps too.
pub fn check_rule_line(
    classes: Declarations,
    names: Declarations,
    permitted: Rising,
    rule: &PackedRule,
    last: Last,
    l: Line,
) -> Result<(), Refusal>
    requires held_rule { HeldRule rule.now }
    requires coming { Coming rule.now last l }
    ensures { result ≡ rule_verdict (scheme_of classes names permitted.entry.keys.now) rule.now last l }
{
    let line = last.lines + 1;
    if !follows(last.line, l) || !placed(last.line, rule.action.operation, l) {
        return Err(Refusal::Malformed { line });
    }
    if crowded(l.kind, lines_above(rule, l.kind)) {
        return Err(Refusal::TooMany { line });
    }
    let pattern = &rule.pattern;
    let above = Above {
        classes,
        names,
        permitted,
        nodes: &pattern.nodes[..pattern.order],
        edges: &pattern.edges[..pattern.size],
    };
    check_row(&above, rule.action.head, l, line)
}
