// The messages of a round as sets of processes (document 01, 'A round'), and what is counted of it.
#![tactic(auto)]

ghost use Rattle.std.specs.Prelude.{◌≡◌, true, ◌≤◌};
ghost use Rattle.general.specs.Bits.{member};
ghost use Rattle.consensus.specs.declared.Fault.TheVariants.{Crashes as crashes};
ghost use Rattle.coordinator.specs.WellFormed.{PointAllowed};
ghost use Rattle.coordinator_sending.specs.code.Sending.{sending_by, SendingAllowed};

use consensus::{CrashPoint, Fault};

pub mod count;

// Whom the messages of a round reach: the coordinator itself, which decides its own value, those that its data get to and those that its commits get to.
#[derive(Clone, Copy)]
pub struct Sent {
    pub coordinator: u64,
    pub reached: u64,
    pub committed: u64,
}

// What coordinator r, which speaks, sends in the round in which it crashes at this point. Commits go to n, n - 1 and so on downward, so the first `count`
// of them go to the processes above n - count.
#[tactic(auto, using(crate::proofs::Reached::by_point))]
fn interrupted(n: u8, r: u8, point: CrashPoint) -> Sent
    requires { (1 ≤ r) × (r ≤ n) × (n ≤ 64) × PointAllowed n r r point }
    ensures { result ≡ sending_by n r (crashes r point) true }
{
    let (reached, committed) = match point {
        CrashPoint::BeforeSending => (0, 0),
        CrashPoint::DuringData(set) => (set, 0),
        CrashPoint::DuringCommits(count) => (sets::above(r, n), sets::above(n - count, n)),
    };
    Sent {
        coordinator: sets::only(r),
        reached,
        committed,
    }
}

// What coordinator r with this fault sends in its round, of which `undecided` are up and undecided as it begins. It speaks if it is one of them, and sends
// to the processes above it.
#[tactic(auto, using(crate::proofs::Reached::by_fault), unfolding(consensus::specs::State::crashes_in))]
pub fn sending(n: u8, r: u8, fault: Fault, undecided: u64) -> Sent
    requires { SendingAllowed n r fault }
    ensures { result ≡ sending_by n r fault (member r undecided) }
{
    if !sets::is_member(r, undecided) {
        return Sent {
            coordinator: 0,
            reached: 0,
            committed: 0,
        };
    }
    match fault {
        Fault::Crashes(round, point) if round == r => interrupted(n, r, point),
        _ => {
            let higher = sets::above(r, n);
            Sent {
                coordinator: sets::only(r),
                reached: higher,
                committed: higher,
            }
        }
    }
}
