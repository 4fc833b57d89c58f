// The application of a rule, for a program that times it.
ghost use Rattle.std.specs.Prelude.{◌≡◌};
ghost use Rattle.graph.specs.Packed.{unpack_scheme, unpack_instance, unpack_rule, StoredRule};
ghost use Rattle.benchmark.specs.Applications.{told, AppliesOver, AppliesFiles};

use graph::instance::PackedInstance;
use graph::rule::PackedRule;
use model::{Counts, Refusal};
use operations::apply;
use reading::drawing::{Whole, read_drawing};
use reports::Applied;
use rules::read_rule;

// The refusal's number, 0 for none, and what is returned with it; what apply reports.
// Kept: the program that times gets this struct through C, and no enum may cross the border.
#[repr(C)]
#[derive(Clone, Copy)]
pub struct Reply {
    pub refusal: u64,
    pub returned: u64,
    pub counts: Counts,
}

// What the last application answered, and the instance after it.
#[repr(C)]
#[derive(Clone, Copy)]
pub struct AppliedOver {
    pub reply: Reply,
    pub instance: PackedInstance,
}

// The reply to an application, or to a text that is refused, and the instance after it: a refusal leaves the one before.
fn told(before: PackedInstance, applied: Result<Applied, Refusal>) -> AppliedOver
    ensures { result ≡ told before applied }
{
    match applied {
        Ok(Applied { counts, instance }) => AppliedOver {
            reply: Reply {
                refusal: 0,
                returned: 0,
                counts,
            },
            instance,
        },
        Err(refusal) => {
            let row = table::row(refusal);
            AppliedOver {
                reply: Reply {
                    refusal: row.number,
                    returned: row.returned,
                    counts: Counts::NONE,
                },
                instance: before,
            }
        }
    }
}

// Applies the rule so many times to the same instance; no counts if it is not applied at all.
fn apply_over(whole: &Whole, rule: &PackedRule, times: u64) -> AppliedOver
    requires { StoredRule (unpack_scheme whole.now.scheme) rule.now }
    ensures { AppliesOver times (unpack_scheme whole.now.scheme) (unpack_rule rule.now) (unpack_instance whole.now.instance) result }
{
    let mut applied = Ok(Applied {
        counts: Counts::NONE,
        instance: whole.instance,
    });
    for _ in 0..times {
        applied = apply(&whole.scheme, &whole.instance, rule);
    }
    told(whole.instance, applied)
}

// Reads a drawing file and a rule text once, and applies the rule to the drawing `times` times.
#[unsafe(no_mangle)]
pub extern "C" fn apply_rule(file: &[u8], rule: &[u8], times: u64) -> AppliedOver
    ensures { AppliesFiles times file.now rule.now result }
{
    match read_drawing(file) {
        Err(refusal) => told(PackedInstance::new(), Err(refusal)),
        Ok(whole) => match read_rule(rule, &whole.scheme) {
            Err(refusal) => told(whole.instance, Err(refusal)),
            Ok(read) => apply_over(&whole, &read, times),
        },
    }
}
