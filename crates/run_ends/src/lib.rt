// A ticket's run to its end, and what a process decides in it (document 01, 'The result'): what an operation that rests on results alone calls.
#![tactic(auto)]

ghost use Rattle.std.specs.Prelude.{◌≡◌};
ghost use Rattle.tables.specs.code.InstanceOfTable.{instance_of};
ghost use Rattle.refusals.specs.Answered.{answer_of};
ghost use Rattle.run_ends.specs.code.Finished.{Finished};
ghost use Rattle.run_ends.specs.code.Decision.{decided_in, deciding};

use consensus::State;
use refusals::Refused;
use tables::{Instance, InstanceTable, RunTable, SentCounts};

// The whole run of an instance.
pub fn whole_run(instance: Instance<'_>) -> RunTable
    ensures { Finished instance.entry.table.now result }
{
    let mut sent = SentCounts::none();
    coordinator_run::run_all(instance, false, &mut sent)
}

// What a process decides in the run of an instance, if it decides.
fn decision_in(instance: Instance<'_>, process: u64) -> Option<u32>
    ensures { result ≡ decided_in process (instance_of instance.entry.table.now) }
{
    if process < 1 || u64::from(instance.table.n) < process {
        return None;
    }
    let run = whole_run(instance);
    match run.state(process as u8) {
        State::Decided(_, value) => Some(value),
        _ => None,
    }
}

// What a process decides in a ticket's run, if it decides.
pub fn decision_of(text: &[u8], process: u64) -> Result<Option<u32>, Refused>
    ensures { answer_of (λ decision. decision) result ≡ deciding text.now process }
{
    let mut table = InstanceTable::empty();
    // A `match`: behind a `?` no must-fail edit could change a refusal alone.
    match ticket::read(text, &mut table) {
        Ok(instance) => Ok(decision_in(instance, process)),
        Err(refused) => Err(refused),
    }
}
