//! Any calls to a table, one after another.
ghost use Rattle.hunks.specs.Calls.{call_of};
ghost use Rattle.rules.specs.Runs.{after_call, after_calls};
ghost use Rattle.rules.specs.TableLaws.{TableKeeps};
ghost use Rattle.std.specs.Prelude.{◌≡◌, map};

use crate::table::HunkTable;
use rules::hunk::{Hunk, Side};

/// A call to a table.
#[derive(Clone, Copy)]
pub enum Call {
    Open {
        ancestor: u32,
        current: u32,
        other: u32,
    },
    Enter(Hunk),
    Withdraw(Side),
}

// One call; what it answers is not kept.
// Stays: a run of calls is a value, which the rules of runs go over.
fn make(table: &mut HunkTable, call: Call)
    ensures { table.new ≡ after_call table.old (call_of call) }
{
    match call {
        Call::Open {
            ancestor,
            current,
            other,
        } => {
            let _ = table.open(ancestor, current, other);
        }
        Call::Enter(hunk) => {
            let _ = table.enter(hunk);
        }
        Call::Withdraw(side) => {
            let _ = table.withdraw(side);
        }
    }
}

/// Makes the calls in order; one that is refused changes nothing, and the next is made.
pub fn run(table: &mut HunkTable, calls: &[Call])
    ensures after { table.new ≡ after_calls table.old (map call_of calls.now) }
    ensures keeps { TableKeeps table.new }
{
    for call in calls {
        make(table, *call);
    }
    // What every table keeps is told where one is read.
    let _ = table.current();
}
