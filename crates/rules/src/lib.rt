// Rule texts, in an open scheme: from any bytes to a rule, or the refusal of the first bad line.
#![tactic(auto)]

ghost use Rattle.std.specs.Prelude.{◌≡◌};
ghost use Rattle.graph.specs.Operations.{code_of};
ghost use Rattle.graph.specs.Packed.{unpack_scheme, StoredScheme};
ghost use Rattle.rule_lines.specs.RuleLines.{FitsRule};
ghost use Rattle.rules.specs.Rules.{Room, KeptRule, is_complete};
ghost use Rattle.rules.specs.Readers.{ReadRule};

use forms::LineKind;
use graph::rule::{Operation, PackedRule};
use graph::scheme::PackedScheme;
use keys::Rising;
use model::Refusal;
use rule_lines::{check_rule_line, in_action};
use text::lines::{Last, Line, rule_line};

// Adds what a line that passes says.
fn keep_rule_line(rule: &mut PackedRule, l: Line)
    requires fits_rule { FitsRule rule.old }
    requires room { Room rule.old l }
    ensures { KeptRule rule.old l rule.new }
{
    let row = l.row;
    match l.kind {
        LineKind::Op => {
            // The form of an op line lets no other number through.
            if let Ok(operation) = Operation::try_from(row) {
                rule.action.operation = operation;
            }
        }
        LineKind::Pnode => {
            rule.pattern.nodes[rule.pattern.order] = row;
            rule.pattern.order += 1;
        }
        LineKind::Pedge => {
            rule.pattern.edges[rule.pattern.size] = row;
            rule.pattern.size += 1;
        }
        LineKind::Arm | LineKind::Put | LineKind::Cut => {
            rule.action.parts[rule.action.count] = row;
            rule.action.count += 1;
        }
        _ => {
            rule.action.head = row;
        }
    }
}

// None is missing at the end: no action, or an action line.
fn is_complete(last: Option<Line>, operation: Operation) -> bool
    ensures { result ≡ is_complete last (code_of operation) }
{
    last.is_some() && (operation == Operation::PatternOnly || in_action(last))
}

// The rule that a text holds, or why it is refused.
pub fn read_rule(text: &[u8], scheme: &PackedScheme) -> Result<PackedRule, Refusal>
    requires { StoredScheme scheme.now }
    ensures { ReadRule (unpack_scheme scheme.now) text.now result }
{
    let mut rule = PackedRule::new();
    let mut last = Last::new();
    for piece in text.split_inclusive(|b| *b == b'\n') {
        let line = last.lines + 1;
        let bytes = piece
            .strip_suffix(b"\n")
            .ok_or(Refusal::Malformed { line })?;
        let l = rule_line(bytes).ok_or(Refusal::Malformed { line })?;
        let permitted = Rising {
            keys: &scheme.permitted[..scheme.permissions],
        };
        check_rule_line(scheme.classes, scheme.names, permitted, &rule, last, l)?;
        keep_rule_line(&mut rule, l);
        last = Last {
            lines: line,
            line: Some(l),
        };
    }
    if is_complete(last.line, rule.action.operation) {
        Ok(rule)
    } else {
        Err(Refusal::Malformed {
            line: last.lines + 1,
        })
    }
}
