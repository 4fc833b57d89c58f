// The five operations, of what a rule notes at each matching. specs/Applies.antt says what `apply` promises.
#![tactic(auto)]

ghost use Rattle.model.specs.Operations.{applied};
ghost use Rattle.graph.specs.Packed.{unpack_scheme, unpack_instance, unpack_rule, StoredInstance, StoredRule};
ghost use Rattle.growth.specs.Growth.{Makes};
ghost use Rattle.operations.specs.Applies.{Applies};
ghost use Rattle.operations.specs.Walked.{Walked};

use abstraction::with_groups;
use deletion::{without_edges, without_nodes};
use edge_addition::with_edges;
use graph::instance::PackedInstance;
use graph::packing::{GROUP_A, GROUP_CLASS, NUMBERS};
use graph::rule::{Operation, PackedRule};
use graph::scheme::PackedScheme;
use matcher::listing::Matchings;
use model::Refusal;
use node_addition::with_nodes;
use notes::{Arms, Notes};
use reports::{Applied, report};
use rule_notes::{begin, noting};

// What is made of the notes, of which the first `begun` were noted before the walk: new nodes for the others; the old edges and the images together
// as the new edges; without the images, and the edges at them; or new nodes for groups of the images.
fn finish(
    scheme: &PackedScheme,
    instance: &mut PackedInstance,
    rule: &PackedRule,
    begun: usize,
    notes: &Notes,
) -> Result<(), Refusal>
    requires { Walked scheme.now instance.old rule.now begun notes.now }
    ensures { Makes (applied (unpack_scheme scheme.now) (unpack_rule rule.now) (unpack_instance instance.old)) result instance.new }
{
    let head = rule.action.head;
    match rule.action.operation {
        Operation::PatternOnly | Operation::Other(_) => Ok(()),
        Operation::NodeAddition => {
            let parts = &rule.action.parts[..rule.action.count];
            with_nodes(instance, head, Arms { parts }, &notes.coming()[begun..])
        }
        Operation::EdgeAddition => with_edges(scheme, instance, notes.rising()),
        Operation::NodeDeletion => {
            without_nodes(instance, notes.rising().keys);
            Ok(())
        }
        Operation::EdgeDeletion => {
            without_edges(instance, notes.rising());
            Ok(())
        }
        Operation::Abstraction => with_groups(
            instance,
            head / GROUP_CLASS % NUMBERS,
            head / GROUP_A % NUMBERS,
            head % NUMBERS,
            notes.rising(),
        ),
    }
}

// Applies an accepted rule to an instance.
pub fn apply(
    scheme: &PackedScheme,
    instance: &PackedInstance,
    rule: &PackedRule,
) -> Result<Applied, Refusal>
    requires stored_instance { StoredInstance (unpack_scheme scheme.now) instance.now }
    requires stored_rule { StoredRule (unpack_scheme scheme.now) rule.now }
    ensures { Applies scheme.now instance.now rule.now result }
{
    let mut notes = begin(instance, &rule.action);
    let begun = notes.count();
    let matchings = Matchings {
        instance,
        pattern: &rule.pattern,
    }
    .visit_all(noting(&rule.action), &mut notes);
    let mut new = *instance;
    let changed = finish(scheme, &mut new, rule, begun, &notes);
    report(instance, matchings, changed, new)
}
