// The reason of each process in each round (document 02, Paper 7), read off how the processes of a whole run end: no round is run again.
#![tactic(auto)]

ghost use Rattle.std.specs.Prelude.{◌≡◌, ◌++◌, ◌*◌, ◌≤◌, ℕ, length, drop};
ghost use Rattle.coordinator_reason.specs.Number.{number_of_reason};
ghost use Rattle.coordinator_reason.specs.code.ByEnds.{reason_waiting, reason_heard, reason_beside, coordinates, reason_in_table, row_by_ends, rows_by_ends};

use consensus::{CrashPoint, Fault, State};
use tables::{InstanceTable, RunTable};

// Why a process ends a round as it does, by document 02's numbers.
#[derive(Clone, Copy, Debug, PartialEq, Eq)]
pub enum Reason {
    // It coordinated and decided.
    Coordinated = 1,
    // It heard value and commit.
    HeardCommit = 2,
    // It heard the value only.
    HeardValue = 3,
    // It heard nothing: the coordinator had crashed before this round.
    CoordinatorCrashedBefore = 4,
    // It heard nothing: the coordinator crashed in this round.
    CoordinatorCrashedNow = 5,
    // It crashed itself.
    CrashedNow = 6,
    // It crashed or decided earlier.
    EndedBefore = 7,
}

impl From<Reason> for u8 {
    ghost from_gives = { λ reason number. number ≡ number_of_reason reason };

    fn from(reason: Reason) -> u8 {
        reason as u8
    }
}

// What the processes that wait through a round have heard in it, found once for all of them.
// A match on the coordinator's end and fault for each process took 135,000 instructions in place of 11,000, at 64 processes.
#[derive(Clone, Copy)]
enum Heard {
    // All of them have this reason.
    Alike(Reason),
    // The coordinator crashed while sending data: these heard the value, the others nothing.
    ValueBy(u64),
}

// What those hear in round r that wait through it, by how coordinator r ends and by its fault.
#[tactic(auto, using(crate::proofs::ByEnds::with_commits, crate::proofs::ByEnds::data_alone), unfolding(crate::specs::Number::number_of_reason, crate::specs::code::ByEnds::reason_heard, crate::specs::code::ByEnds::reason_waiting, crate::specs::code::ByEnds::ended_before, crate::specs::code::ByEnds::data_reaches, coordinator::specs::Delivery::reach_at, coordinator::specs::Message::gets_data))]
fn heard_in(r: u8, coordinator: State, fault: Fault) -> Heard
    ensures { (p : ℕ) → reason_heard p result ≡ reason_waiting p r coordinator fault }
{
    let gone = match coordinator {
        State::Undecided(_) => true,
        State::Decided(round, _) | State::Crashed(round) => round < r,
    };
    if gone {
        return Heard::Alike(Reason::CoordinatorCrashedBefore);
    }
    match fault {
        Fault::Crashes(_, CrashPoint::DuringCommits(_)) => Heard::Alike(Reason::HeardValue),
        Fault::Crashes(_, CrashPoint::DuringData(set)) => Heard::ValueBy(set),
        // It crashed before it sent anything. (One that is correct leaves nobody waiting.)
        _ => Heard::Alike(Reason::CoordinatorCrashedNow),
    }
}

// The reason of process p in a round through which it waits.
#[tactic(auto, unfolding(crate::specs::Number::number_of_reason, crate::specs::code::ByEnds::reason_heard))]
fn reason_waiting(p: u8, heard: Heard) -> Reason
    requires { (1 ≤ p) × (p ≤ 64) }
    ensures { number_of_reason result ≡ reason_heard p heard }
{
    match heard {
        Heard::Alike(reason) => reason,
        Heard::ValueBy(set) if sets::is_member(p, set) => Reason::HeardValue,
        Heard::ValueBy(_) => Reason::CoordinatorCrashedNow,
    }
}

// The reason in round r of a process that does not coordinate it, by how it ends in the whole run and by the reason that it has if it waits.
#[tactic(auto, unfolding(crate::specs::Number::number_of_reason, crate::specs::code::ByEnds::reason_beside))]
fn reason_beside(r: u8, own: State, waiting: Reason) -> Reason
    ensures { number_of_reason result ≡ reason_beside r own (number_of_reason waiting) }
{
    let (round, now) = match own {
        State::Undecided(_) => return Reason::EndedBefore,
        State::Decided(round, _) => (round, Reason::HeardCommit),
        State::Crashed(round) => (round, Reason::CrashedNow),
    };
    if round < r {
        Reason::EndedBefore
    } else if r < round {
        waiting
    } else {
        now
    }
}

// Whether process p coordinates round r and decides in it, by how it ends.
#[tactic(auto, unfolding(crate::specs::code::ByEnds::coordinates))]
fn coordinates(p: u8, r: u8, end: State) -> bool
    ensures { result ≡ coordinates p r end }
{
    matches!(end, State::Decided(round, _) if round == r && p == r)
}

// The reason of process p in round r of a whole run.
#[tactic(auto, unfolding(crate::specs::Number::number_of_reason, crate::specs::code::ByEnds::reason_in_table, crate::specs::code::ByEnds::reason_by_end))]
pub fn reason_at(p: u8, r: u8, table: &InstanceTable, run: &RunTable) -> Reason
    requires { (1 ≤ p) × (p ≤ 64) × (1 ≤ r) × (r ≤ 64) }
    ensures { number_of_reason result ≡ reason_in_table table.now run.now p r }
{
    let own = run.state(p);
    if coordinates(p, r, own) {
        return Reason::Coordinated;
    }
    let heard = heard_in(r, run.state(r), table.pattern[(r - 1) as usize]);
    reason_beside(r, own, reason_waiting(p, heard))
}

// The reasons of the run's processes in round r, at the front of a part of the output.
// The coordinator's decision is written last: a test in the loop for it took two to five times the instructions, at 64 processes.
fn put_row(out: &mut [u8], r: u8, table: &InstanceTable, run: &RunTable)
    requires { (1 ≤ r) × (r ≤ 64) × (run.now.n ≤ 64) × (run.now.n ≤ length out.old) }
    ensures { out.new ≡ row_by_ends table.now run.now r ++ drop run.now.n out.old }
{
    let coordinator = run.state(r);
    let heard = heard_in(r, coordinator, table.pattern[(r - 1) as usize]);
    for p in 1..=run.n {
        let reason = reason_beside(r, run.state(p), reason_waiting(p, heard));
        out[(p - 1) as usize] = u8::from(reason);
    }
    if r <= run.n && coordinates(r, r, coordinator) {
        out[(r - 1) as usize] = u8::from(Reason::Coordinated);
    }
}

// The reasons of the run's processes in its rounds, one round after the other, at the front of the output.
pub fn put_reasons(out: &mut [u8], table: &InstanceTable, run: &RunTable)
    requires { (run.now.n ≤ 64) × (run.now.rounds ≤ 64) × (run.now.rounds * run.now.n ≤ length out.old) }
    ensures { out.new ≡ rows_by_ends table.now run.now run.now.rounds ++ drop (run.now.rounds * run.now.n) out.old }
{
    let n = usize::from(run.n);
    // Over places, so that a round's number stays a byte: as a counter of its own it takes eight, and the rows half the speed.
    for i in 0..usize::from(run.rounds) {
        put_row(&mut out[i * n..], i as u8 + 1, table, run);
    }
}
