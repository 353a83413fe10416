// Reading a ticket (document 01, 'The ticket'): from any bytes to an instance or a refusal.
#![tactic(auto)]

ghost use Rattle.std.specs.Prelude.{◌≡◌, true, ◌≤◌, length};
ghost use Rattle.consensus.specs.Instance.{within_limits};
ghost use Rattle.refusals.specs.Answered.{answer_of};
ghost use Rattle.tables.specs.code.InstanceOfTable.{empty_table, instance_of};
ghost use Rattle.ticket_format.specs.Ticket.{read_ticket};
ghost use Rattle.ticket.specs.code.FirstLine.{rest_of, FirstRead};

use reader::LineReader;
use refusals::{Refusal, Refused};
use tables::{Instance, InstanceTable};
use ticket_checks::Limits;
use ticket_format::Place;
use ticket_lines::Said;

// The most bytes that a ticket has.
const TICKET_LIMIT: usize = 4096;

// Reads the first line of a text; a refusal is of line 1.
#[tactic(auto, using(reader::proofs::NextLine::next_none, crate::proofs::FirstLine::no_text, crate::proofs::FirstLine::no_header), unfolding(refusals::specs::Number::number_of))]
fn read_first(reader: &mut LineReader<'_>) -> Result<Limits, Refusal>
    requires { reader.old.at ≡ 0 }
    ensures text { reader.new.text ≡ reader.old.text }
    ensures first { FirstRead reader.old.text.now result reader.new.at }
{
    if reader.is_over() {
        return Err(Refusal::WrongLine);
    }
    let Some(line) = reader.next_line() else {
        return Err(Refusal::NoLine);
    };
    ticket_lines::header_line(line)
}

// Reads the lines after a header into a lent table that holds nothing yet. What the table holds after a refusal is not promised.
#[tactic(auto, using(reader::proofs::NextLine::next_none, crate::proofs::Reached::reached_end, crate::proofs::Reached::reached_early, crate::proofs::Reached::reached_no_line, crate::proofs::Reached::few_lines), unfolding(refusals::specs::Answered::answer_of, refusals::specs::Number::number_of))]
fn read_rest(
    mut reader: LineReader<'_>,
    limits: Limits,
    table: &mut InstanceTable,
) -> Result<(), Refused>
    requires { (within_limits limits.n limits.t ≡ true) × (reader.at ≤ length reader.text.now)
        × (table.old ≡ empty_table 0 0) }
    ensures { answer_of (λ _. instance_of table.new) result ≡ rest_of reader.entry.text.now limits reader.entry.at }
{
    table.n = limits.n;
    table.t = limits.t;
    let mut place = Place::Proposals(0);
    // `for k in 2..` would need an end that no ticket reaches, and an answer for it.
    let mut k: u16 = 2;
    while !reader.is_over() {
        let Some(line) = reader.next_line() else {
            return Err(Refusal::NoLine.at_line(k));
        };
        match ticket_lines::accept_line(line, place, limits) {
            Ok(Said::Proposal(count, value, to)) => {
                table.proposals[count as usize] = value;
                place = to;
            }
            Ok(Said::Crash(lines, l)) => {
                table.pattern[(l.process - 1) as usize] = ticket_checks::fault(l);
                place = Place::Failures(lines, l.process);
            }
            Ok(Said::End) => place = Place::Ended,
            Err(refusal) => return Err(refusal.at_line(k)),
        }
        k += 1;
    }
    let Place::Ended = place else {
        return Err(Refusal::WrongLine.at_line(k));
    };
    Ok(())
}

// Reads a ticket into a lent table that holds nothing yet. What the table holds after a refusal is not promised.
#[tactic(auto, using(crate::proofs::ReadAs::too_long_lem, crate::proofs::ReadAs::short_read), unfolding(refusals::specs::Answered::answer_of, refusals::specs::Number::number_of))]
pub fn read_into(text: &[u8], table: &mut InstanceTable) -> Result<(), Refused>
    requires { table.old ≡ empty_table 0 0 }
    ensures { answer_of (λ _. instance_of table.new) result ≡ read_ticket text.now }
{
    if TICKET_LIMIT < text.len() {
        return Err(Refusal::TicketTooLong.into());
    }
    let mut reader = LineReader::new(text, 0);
    match read_first(&mut reader) {
        Ok(limits) => read_rest(reader, limits, table),
        Err(refusal) => Err(refusal.at_line(1)),
    }
}

// Reads a ticket into a lent table that holds nothing yet: the instance that it describes, or its refusal.
#[tactic(auto, unfolding(refusals::specs::Answered::answer_of))]
pub fn read<'a>(text: &[u8], table: &'a mut InstanceTable) -> Result<Instance<'a>, Refused>
    requires { table.old ≡ empty_table 0 0 }
    ensures { answer_of (λ instance. instance_of instance.table.now) result ≡ read_ticket text.now }
{
    read_into(text, table)?;
    Ok(Instance { table })
}
