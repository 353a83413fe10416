// What is counted of a process.
ghost use Rattle.std.specs.Prelude.{◌≡◌, cond, ◌≤◌};
ghost use Rattle.general.specs.Bits.{member};
ghost use Rattle.consensus.specs.CrashCount.{counts_as_crash};

use consensus::{Fault, State};

// 1 for a coordinator that begins its round up and undecided: a speaker.
pub fn speakers_in(r: u8, undecided: u64) -> u8
    requires { (1 ≤ r) × (r ≤ 64) }
    ensures { result ≡ cond (member r undecided) 1 0 }
{
    u8::from(sets::is_member(r, undecided))
}

// 1 for a failure line that is not idle, given its process's fault and last state.
#[tactic(auto, unfolding(consensus::specs::CrashCount::counts_as_crash, consensus::specs::CrashCount::is_idle))]
pub fn counts_as_crash(fault: Fault, state: State) -> u8
    ensures { result ≡ counts_as_crash fault state }
{
    match (fault, state) {
        (Fault::Correct, _) => 0,
        (Fault::Crashes(round, _), State::Decided(ended, _)) if ended < round => 0,
        _ => 1,
    }
}
