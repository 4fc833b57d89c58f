// The undo history, newest first: an instance put before the copies, and the newest copy taken off, in place.
#![tactic(auto)]

ghost use Rattle.std.specs.Prelude.{◌<◌, ◌≤◌};
ghost use Rattle.model.specs.Limits;
ghost use Rattle.history.specs.Histories.{PushedOn, PoppedOff};

use graph::history::History;
use graph::instance::PackedInstance;

// The last of eight copies is lost. Only the copies that stand are moved.
pub fn push(history: &mut History, instance: &PackedInstance)
    requires { history.old.depth ≤ Limits.copies }
    ensures { PushedOn history.old instance.now history.new }
{
    let depth = (history.depth + 1).min(History::COPIES);
    history.copies.copy_within(0..depth - 1, 1);
    history.copies[0] = *instance;
    history.depth = depth;
}

pub fn pop(history: &mut History) -> PackedInstance
    requires depth_nonzero { 0 < history.old.depth }
    requires depth_bound { history.old.depth ≤ Limits.copies }
    ensures { PoppedOff history.old result history.new }
{
    let newest = history.copies[0];
    history.copies.copy_within(1..history.depth, 0);
    history.depth -= 1;
    newest
}
