// The reason beside each desk (document 02, Paper 7): of one process in one round, and of all processes in all rounds at the cost of one run. Total on every
// text, every number and every buffer.
#![tactic(auto)]

ghost use Rattle.std.specs.Prelude.{◌≡◌, ◌&&◌, leb};
ghost use Rattle.answers.specs.Reason.{reason};
ghost use Rattle.answers.specs.Reply.{answer_by, reply_of, reply_by, Explained};
ghost use Rattle.refusals.specs.Answered.{answer_of};
ghost use Rattle.coordinator_reason.specs.Number.{number_of_reason};

use coordinator_reason::Reason;
use refusals::{Refusal, Refused};
use tables::InstanceTable;

// Whether there are such a process, of n, and such a round.
fn is_within(process: u64, n: u8, round: u64, rounds: u8) -> bool
    ensures { result ≡ (leb 1 process && leb process n && leb 1 round && leb round rounds) }
{
    1 <= process && process <= u64::from(n) && 1 <= round && round <= u64::from(rounds)
}

// Gives the reason of a process in a round of a ticket's run.
pub fn reason_of(text: &[u8], process: u64, round: u64) -> Result<Reason, Refused>
    ensures value { answer_of number_of_reason result ≡ reason text.now process round }
    ensures reply { answer_by (reply_by number_of_reason result) ≡ reason text.now process round }
{
    let mut table = InstanceTable::empty();
    // A `match`: behind a `?` no must-fail edit could change a refusal alone.
    let instance = match ticket::read(text, &mut table) {
        Ok(instance) => instance,
        Err(refused) => return Err(refused),
    };
    let run = run_ends::whole_run(instance);
    if !is_within(process, instance.table.n, round, run.rounds) {
        return Err(Refusal::NoSuchReason.at_line(0));
    }
    Ok(coordinator_reason::reason_at(process as u8, round as u8, instance.table, &run))
}

// Writes the reasons of all processes in all rounds of a ticket's run to the front of a buffer, round by round, in each the processes in order: how many.
pub fn all_reasons(text: &[u8], out: &mut [u8]) -> Result<usize, Refused>
    ensures { Explained text.now out.old out.new (reply_of result) }
{
    let mut table = InstanceTable::empty();
    // A `match`: behind a `?` no must-fail edit could change a refusal alone.
    let read = match ticket::read(text, &mut table) {
        Ok(instance) => instance,
        Err(unread) => return Err(unread),
    };
    let run = run_ends::whole_run(read);
    let size = usize::from(run.rounds) * usize::from(run.n);
    if out.len() < size {
        return Err(Refusal::OutputTooShort.at_line(0));
    }
    coordinator_reason::put_reasons(out, read.table, &run);
    Ok(size)
}
