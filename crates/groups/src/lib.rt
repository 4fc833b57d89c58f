// Groups of images with equal sets of targets, as arms to their members; and the nodes of a class, which may have a group as their targets.
#![tactic(auto)]

ghost use Rattle.std.specs.Prelude.{◌≡◌, true, ◌^◌, ◌<◌, ◌≤◌, length};
ghost use Rattle.lists.specs.Lists.{◌!◌};
ghost use Rattle.keys.specs.Keys.{keys_rise, Front};
ghost use Rattle.groups.specs.Groups.{numbers_of, arms_led_by};

use edge_runs::Runs;
use graph::packing::{ARM_NAME, NODE_CLASS, NODE_NUMBER, NUMBERS};

// The numbers of the nodes of the class, put into the array; how many they are.
// Kept: a count says how much of the array is filled, since there is no heap to collect them in. That part of the array as the result would leave
// unsaid what stands in the array afterwards, since the check proves no such clause where a slice is lent.
pub fn numbers_of(nodes: &[u64], class: u64, numbers: &mut [u64]) -> usize
    requires { length nodes.now ≤ length numbers.old }
    ensures { Front numbers.new result (numbers_of class nodes.now) }
{
    let mut count = 0;
    for node in nodes {
        if *node / NODE_CLASS % NUMBERS == class {
            numbers[count] = *node / NODE_NUMBER;
            count += 1;
        }
    }
    count
}

// Runs of images, which rise.
#[derive(Clone, Copy)]
pub struct Images<'e, 'n, 's> {
    pub runs: Runs<'e, 'n, 's>,
    pub ghost rise: { keys_rise runs.numbers.now ≡ true },
}

impl<'e, 'n, 's> Images<'e, 'n, 's> {
    // Arms to the group of which the image at `i` is the smallest member, put into the array; none where an image before it has the same targets.
    // The result is how many they are.
    // Kept: a count beside the array, as no heap holds the arms, and the place of each image, which is compared with `i`.
    pub fn arms_led_by(&self, i: usize, b: u64, arms: &mut [u64]) -> usize
        requires b_bound { b < 2 ^ 6 }
        requires images_in_bounds { length self.now.runs.numbers.now ≤ length arms.old }
        requires i_in_bounds { i < length self.now.runs.numbers.now }
        ensures { let runs = self.now.runs in
            Front arms.new result (arms_led_by runs.edges.keys.now runs.name b runs.numbers.now (runs.numbers.now ! i)) }
    {
        let keys = self.runs.run(i);
        let mut count = 0;
        for (j, image) in self.runs.numbers.iter().enumerate() {
            if self.runs.has(j, keys) {
                if j < i {
                    return 0;
                }
                arms[count] = b * ARM_NAME + *image;
                count += 1;
            }
        }
        count
    }
}
