// What one line of a ticket says where it stands (document 01, 'The ticket' and refusals 3 to 8). A line comes as its size and its last sixteen bytes as
// two words.
#![tactic(auto)]

ghost use Rattle.std.specs.Prelude.{◌≡◌, ◌≤◌, ◌<◌};
ghost use Rattle.ticket_format.specs.Says.{header_says, after_proposal, proposal_says, failure_line, crash_says, failure_says, line_says};
ghost use Rattle.ticket_lines.specs.code.Places.{HasPlaces};
ghost use Rattle.ticket_lines.specs.code.Said.{bytes_in, header_by, line_by};
ghost use Rattle.lines.specs.code.Words.{line_bytes};

use lines::Line;
use refusals::Refusal;
use ticket_checks::Limits;
use ticket_format::{FailureLine, Place};

// The kinds of a ticket's lines, and the bytes that each has.
const HEADER: u8 = 1;

const HEADER_SIZE: usize = 3;

const PROPOSAL: u8 = 2;

const PROPOSAL_SIZE: usize = 6;

const FAILURE: u8 = 3;

const FAILURE_SIZE: usize = 13;

const END: u8 = 4;

const END_SIZE: usize = 1;

// What an accepted line behind the header says.
#[derive(Clone, Copy)]
pub enum Said {
    // After so many proposals this value; and the place behind it.
    Proposal(u8, u32, Place),
    // A crash; with it there are so many.
    Crash(u8, FailureLine),
    // The 04.
    End,
}

// 01, n, t.
#[tactic(auto, using(crate::proofs::Fields::header_fields), unfolding(ticket_format::specs::Says::header_says, ticket_format::specs::Says::is_kind, refusals::specs::Number::number_of))]
pub fn header_line(line: Line) -> Result<Limits, Refusal>
    ensures { header_by result ≡ header_says (bytes_in line) }
{
    let [.., kind, n, t] = line.tail.to_be_bytes();
    if line.size != HEADER_SIZE || kind != HEADER {
        return Err(Refusal::WrongLine);
    }
    let limits = Limits { n, t };
    if !ticket_checks::within_limits(limits) {
        return Err(Refusal::OutsideLimits);
    }
    Ok(limits)
}

// The place behind one proposal more, after `count` of them; the n-th is the last.
#[tactic(auto, unfolding(ticket_format::specs::Says::after_proposal))]
fn after_proposal(n: u8, count: u8) -> Place
    requires { (count < n) × (n ≤ 64) }
    ensures { result ≡ after_proposal n count }
{
    let proposals = count + 1;
    if proposals == n {
        Place::Failures(0, 0)
    } else {
        Place::Proposals(proposals)
    }
}

// 02, station, value (4 bytes).
#[tactic(auto, using(crate::proofs::Fields::proposal_fields), unfolding(ticket_format::specs::Says::proposal_says, ticket_format::specs::Says::is_kind, refusals::specs::Number::number_of))]
fn proposal_line(line: Line, count: u8, n: u8) -> Result<Said, Refusal>
    requires { (count < n) × (n ≤ 64) }
    ensures { line_by result ≡ proposal_says n count (bytes_in line) }
{
    let [.., kind, process, a, b, c, d] = line.tail.to_be_bytes();
    if line.size != PROPOSAL_SIZE || kind != PROPOSAL {
        return Err(Refusal::WrongLine);
    }
    if process != count + 1 {
        return Err(Refusal::NotNextProposal);
    }
    let value = u32::from_be_bytes([a, b, c, d]);
    Ok(Said::Proposal(count, value, after_proposal(n, count)))
}

// A failure line whose kind and length are right, after `lines` of them, the last of process `last`.
#[tactic(auto, using(ticket_format::proofs::CrashPlaced::crash_placed), unfolding(ticket_format::specs::Says::crash_says, refusals::specs::Number::number_of))]
fn crash_line(l: FailureLine, lines: u8, last: u8, limits: Limits) -> Result<Said, Refusal>
    requires { limits.n ≤ 64 }
    ensures { line_by result ≡ crash_says limits.n limits.t lines last l }
{
    if limits.t <= lines {
        return Err(Refusal::TooManyCrashes);
    }
    if !ticket_checks::places_crash(limits, last, l) {
        return Err(Refusal::CrashMisplaced);
    }
    if !ticket_checks::suits_step(limits.n, l) {
        return Err(Refusal::CrashUnsuited);
    }
    Ok(Said::Crash(lines + 1, l))
}

// Station, round, step, set (8 bytes) and count of a line of 13 bytes.
#[tactic(auto, using(crate::proofs::Fields::failure_fields), unfolding(ticket_format::specs::Says::failure_line))]
fn failure_fields(line: Line) -> FailureLine
    ensures { result ≡ failure_line (line_bytes 13 line.head line.tail) }
{
    let [.., process, round, step, _] = line.head.to_be_bytes();
    let [.., count] = line.tail.to_be_bytes();
    FailureLine {
        process,
        round,
        step,
        // `from_be_bytes` of its eight bytes took 40 instructions more a line, 9 % of reading a ticket.
        reached: (line.head << 56) | (line.tail >> 8),
        count,
    }
}

// 03 and a failure line's bytes; or 04, the end.
#[tactic(auto, using(crate::proofs::Fields::kinds), unfolding(ticket_format::specs::Says::failure_says, ticket_format::specs::Says::is_kind, refusals::specs::Number::number_of))]
fn failure_line(line: Line, lines: u8, last: u8, limits: Limits) -> Result<Said, Refusal>
    requires { limits.n ≤ 64 }
    ensures { line_by result ≡ failure_says limits.n limits.t lines last (bytes_in line) }
{
    let [.., end] = line.tail.to_be_bytes();
    let [_, _, _, kind, ..] = line.head.to_be_bytes();
    match line.size {
        END_SIZE if end == END => Ok(Said::End),
        FAILURE_SIZE if kind == FAILURE => crash_line(failure_fields(line), lines, last, limits),
        _ => Err(Refusal::WrongLine),
    }
}

// One line behind the header, at a place of a ticket whose header said n and t.
#[tactic(auto, unfolding(ticket_format::specs::Says::line_says, crate::specs::code::Places::HasPlaces, refusals::specs::Number::number_of))]
pub fn accept_line(line: Line, place: Place, limits: Limits) -> Result<Said, Refusal>
    requires { HasPlaces place limits.n }
    ensures { line_by result ≡ line_says limits.n limits.t place (bytes_in line) }
{
    match place {
        Place::Proposals(count) => proposal_line(line, count, limits.n),
        Place::Failures(lines, last) => failure_line(line, lines, last, limits),
        Place::Ended => Err(Refusal::WrongLine),
    }
}
