// The rounds of an instance one after the other, until no process is both up and undecided (document 01, 'A round') or, where that is asked for, until the
// run has settled (document 02, Paper 6).
// The instance is lent; the run is a table by value that goes through each round and comes back. What counts of what each process sends is kept beside it,
// lent too (document 02, Papers 2 and 4).
#![tactic(auto)]

ghost use Rattle.tables.specs.code.InstanceOfTable.{instance_of};
ghost use Rattle.tables.specs.code.NoneSent.{NoneSent};
ghost use Rattle.coordinator_run.specs.code.Running.{RunOf};

use tables::{Instance, RunTable, SentCounts};

// The whole run: rounds 1 to t + 1, or to the earlier round by which no process is both up and undecided. With `until_settled` it stops at the end of the
// settling round. The run's `undecided` is the set by its arrays.
// `until_settled` is no closure that says when to stop: the contract would say less plainly at which of two rounds the run ends.
// What a round counts is kept for its coordinator in `sent`, which holds no count at first.
#[tactic(auto, using(crate::proofs::OfTable::limits))]
pub fn run_all(instance: Instance<'_>, until_settled: bool, sent: &mut SentCounts) -> RunTable
    requires { NoneSent sent.old }
    ensures { RunOf (instance_of instance.entry.table.now) until_settled result sent.new }
{
    let table = instance.table;
    let faulty = coordinator_crashes::crash_sets(table);
    let mut run = tables::initial_run(table.n, table.proposals);
    for r in 1..=table.t + 1 {
        if run.undecided == 0 {
            return run;
        }
        let i = (r - 1) as usize;
        let data_before = run.data_sent;
        let commits_before = run.commits_sent;
        run = coordinator_round::run_round(r, table.pattern[i], faulty[i], run);
        sent.data_by[i] = (run.data_sent - data_before) as u8;
        sent.commits_by[i] = (run.commits_sent - commits_before) as u8;
        if until_settled && coordinator_settling::hold_one_value(run) {
            return run;
        }
    }
    run
}
