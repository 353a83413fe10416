// Who crashes in which round, and f: the failure lines that are not idle (document 01, 'A round').
#![tactic(auto)]

ghost use Rattle.std.specs.Prelude.{◌≡◌, ◌≤◌};
ghost use Rattle.consensus.specs.CrashCount.{crash_count};
ghost use Rattle.tables.specs.code.InstanceOfTable.{instance_of};
ghost use Rattle.tables.specs.code.RunOfTable.{states_in};
ghost use Rattle.coordinator_crashes.specs.code.CrashSets.{CrashSets};

use consensus::Fault;
use coordinator_sending::count;
use tables::{InstanceTable, RunTable};

// No run has a round above this.
const LAST_ROUND: u8 = 64;

// The sets of the table's processes that have the same crash round, that of round r at place r - 1.
pub fn crash_sets(table: &InstanceTable) -> [u64; 64]
    requires { table.now.n ≤ 64 }
    ensures { CrashSets table.now.n table.now.pattern result }
{
    let mut by_round = [0; 64];
    for p in 1..=table.n {
        if let Fault::Crashes(round, _) = table.pattern[(p - 1) as usize] {
            if 1 <= round && round <= LAST_ROUND {
                by_round[(round - 1) as usize] |= sets::only(p);
            }
        }
    }
    by_round
}

// f: the failure lines that are not idle, given the last states.
pub fn crash_count(table: &InstanceTable, run: &RunTable) -> u8
    requires { (table.now.n ≤ 64) × (run.now.n ≡ table.now.n) }
    ensures { result ≡ crash_count (instance_of table.now).pattern (states_in run.now) }
{
    let mut f = 0;
    for p in 1..=run.n {
        f += count::counts_as_crash(table.pattern[(p - 1) as usize], run.state(p));
    }
    f
}
