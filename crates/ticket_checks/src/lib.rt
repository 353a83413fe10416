// The checks of a ticket's lines behind refusals 4, 7 and 8 (document 01, 'Refused calls'), each equal to its definition.
#![tactic(auto)]

ghost use Rattle.std.specs.Prelude.{◌≡◌, ◌≤◌};
ghost use Rattle.consensus.specs.Instance.{within_limits};
ghost use Rattle.ticket_format.specs.FailureLine.{places_crash, all_between, suits_step, fault_by};

use consensus::{BEFORE_SENDING, CrashPoint, DURING_COMMITS, DURING_DATA, Fault};
use ticket_format::FailureLine;

// What the header says: n, and t, the most processes that may crash.
// That n is at most 64 stays a clause where it is asked: `within_limits` takes any n, and so does `accept_line` behind the 04.
#[derive(Clone, Copy, Debug, PartialEq, Eq)]
pub struct Limits {
    pub n: u8,
    pub t: u8,
}

// True where refusal 4 does not apply: 1 ≤ n ≤ 64 and t < n.
#[tactic(auto, unfolding(consensus::specs::Instance::within_limits))]
pub fn within_limits(limits: Limits) -> bool
    ensures { result ≡ within_limits limits.n limits.t }
{
    1 <= limits.n && limits.n <= 64 && limits.t < limits.n
}

// True where refusal 7 does not apply: process in 1 to n and above the last one, round in 1 to t + 1, step at most 02.
#[tactic(auto, unfolding(ticket_format::specs::FailureLine::places_crash))]
pub fn places_crash(limits: Limits, last: u8, l: FailureLine) -> bool
    ensures { result ≡ places_crash limits.n limits.t last l }
{
    1 <= l.process
        && l.process <= limits.n
        && last < l.process
        && 1 <= l.round
        && l.round - 1 <= limits.t
        && l.step <= DURING_COMMITS
}

// A set of processes all above p and at most n.
#[tactic(auto, using(general::proofs::Bits::meets, crate::proofs::Sets::among_first), unfolding(ticket_format::specs::FailureLine::all_between))]
fn all_between(p: u8, n: u8, reached: u64) -> bool
    requires { (1 ≤ p) × (p ≤ n) × (n ≤ 64) }
    ensures { result ≡ all_between p n reached }
{
    reached & sets::first_processes(p) == 0 && reached & sets::first_processes(n) == reached
}

// True where refusal 8 does not apply: a set and a count that suit the step; steps 01 and 02 in the process's own round.
#[tactic(auto, unfolding(ticket_format::specs::FailureLine::suits_step))]
pub fn suits_step(n: u8, l: FailureLine) -> bool
    requires { (1 ≤ l.process) × (l.process ≤ n) × (n ≤ 64) }
    ensures { result ≡ suits_step n l }
{
    match l.step {
        BEFORE_SENDING => l.reached == 0 && l.count == 0,
        DURING_DATA => l.round == l.process && all_between(l.process, n, l.reached) && l.count == 0,
        _ => l.round == l.process && l.reached == 0 && l.count <= n - l.process,
    }
}

// The fault that a failure line states.
#[tactic(auto, unfolding(consensus::specs::Instance::point_from))]
pub fn fault(l: FailureLine) -> Fault
    ensures { result ≡ fault_by l }
{
    let point = match l.step {
        BEFORE_SENDING => CrashPoint::BeforeSending,
        DURING_DATA => CrashPoint::DuringData(l.reached),
        _ => CrashPoint::DuringCommits(l.count),
    };
    Fault::Crashes(l.round, point)
}
