// Running and settling a ticket (document 01, 'The result' and 'Refused calls'): total on every text and every buffer.
#![tactic(auto)]

ghost use Rattle.std.specs.Prelude.{◌≡◌};
ghost use Rattle.coordinator.specs.Settling.{first_settling};
ghost use Rattle.tables.specs.code.InstanceOfTable.{instance_of};
ghost use Rattle.answers.specs.Running.{result_in};
ghost use Rattle.answers.specs.Settle.{settling};
ghost use Rattle.answers.specs.Reply.{answer_by, reply_of, Writing, Ran};

use refusals::{Refusal, Refused};
use tables::{Instance, InstanceTable, SentCounts};

// Runs an instance and writes its result to the front of a buffer: how many bytes.
fn run_instance(instance: Instance<'_>, out: &mut [u8]) -> Result<usize, Refused>
    ensures { Writing (λ room. result_in room (instance_of instance.entry.table.now)) out.old out.new (reply_of result) }
{
    let size = result::result_size(instance.table.n);
    if out.len() < size {
        return Err(Refusal::OutputTooShort.at_line(0));
    }
    let mut sent = SentCounts::none();
    let run = coordinator_run::run_all(instance, false, &mut sent);
    let f = coordinator_crashes::crash_count(instance.table, &run);
    result::write_result(out, &run, f, &sent);
    Ok(size)
}

// Runs a ticket and writes its result to the front of a buffer: how many bytes.
pub fn run_ticket(text: &[u8], out: &mut [u8]) -> Result<usize, Refused>
    ensures { Ran text.now out.old out.new (reply_of result) }
{
    let mut table = InstanceTable::empty();
    // A `match`: behind a `?` no must-fail edit could change a refusal alone.
    match ticket::read(text, &mut table) {
        Ok(instance) => run_instance(instance, out),
        Err(refused) => Err(refused),
    }
}

// The settling round of an instance: the last round of its run as far as it is run.
fn settling_round(instance: Instance<'_>) -> u8
    ensures { result ≡ first_settling (instance_of instance.entry.table.now) }
{
    let mut sent = SentCounts::none();
    let run = coordinator_run::run_all(instance, true, &mut sent);
    run.rounds
}

// Names the lowest round of the run at whose end all processes not crashed hold one value.
pub fn settle(text: &[u8]) -> Result<u8, Refused>
    ensures { answer_by (reply_of result) ≡ settling text.now }
{
    let mut table = InstanceTable::empty();
    // A `match`: behind a `?` no must-fail edit could change a refusal alone.
    match ticket::read(text, &mut table) {
        Ok(instance) => Ok(settling_round(instance)),
        Err(unsettled) => Err(unsettled),
    }
}
