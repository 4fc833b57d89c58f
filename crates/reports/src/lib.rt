// The answer to an applied rule: five counts, told from the numbers of nodes and edges before and after, or the refusal.
#![tactic(auto)]

ghost use Rattle.std.specs.Prelude.{◌≡◌};
ghost use Rattle.reports.specs.Reported.{counts_of, Reports, Roomy};

use graph::instance::PackedInstance;
use model::{Counts, Difference, Refusal};

// What is reported, and the instance afterwards.
#[derive(Clone, Copy)]
pub struct Applied {
    pub counts: Counts,
    pub instance: PackedInstance,
}

// An operation only adds or only removes, so that the numbers of nodes and edges tell how many.
fn count_changes(old: &PackedInstance, matchings: u64, new: &PackedInstance) -> Counts
    ensures counts { result ≡ counts_of old.now matchings new.now }
    ensures room { Roomy old.now × Roomy new.now }
{
    Counts {
        matchings,
        added: Difference {
            nodes: new.order.saturating_sub(old.order) as u64,
            edges: new.size.saturating_sub(old.size) as u64,
        },
        removed: Difference {
            nodes: old.order.saturating_sub(new.order) as u64,
            edges: old.size.saturating_sub(new.size) as u64,
        },
    }
}

// What became of an instance that was to be changed in place. A refusal is passed on, and then the new instance is dropped.
pub fn report(
    old: &PackedInstance,
    matchings: u64,
    changed: Result<(), Refusal>,
    new: PackedInstance,
) -> Result<Applied, Refusal>
    ensures { Reports old.now matchings changed new result }
{
    // Counted before a refusal is passed on: what is read here tells the room of both instances.
    let counts = count_changes(old, matchings, &new);
    changed?;
    Ok(Applied {
        counts,
        instance: new,
    })
}
