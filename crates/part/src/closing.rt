// What an open process does at the end of a round (document 01, 'The desk part': "it keeps its value, adopts, or adopts and decides").
ghost use Rattle.std.specs.Prelude.{◌≡◌, length};
ghost use Rattle.coordinator.specs.Transition.{continues, decides};
ghost use Rattle.part_format.specs.PartState.{state_from, state_bytes};
ghost use Rattle.part_format.specs.Close.{state_after, closed_on};
ghost use Rattle.part.specs.code.RoundFits.{RoundFits};
ghost use Rattle.part_frames.specs.code.Heard.{messages_as};

use part_bytes::number_at;
use part_frames::Messages;
use part_state::layout::{
    MARK_DECIDED, MARK_OPEN, MARK_OVER, PROCESS_AT, PROCESSES_AT, RESILIENCE_AT, ROUND_AT,
    VALUE_AT, write_state,
};

// Writes the state of a process that decides this value.
fn decide(state: &mut [u8], value: u32)
    requires { length state.old ≡ 9 }
    ensures { state.new ≡ state_bytes (state_after (state_from state.old) (decides value)) }
{
    let process = state[PROCESS_AT];
    let n = state[PROCESSES_AT];
    let t = state[RESILIENCE_AT];
    let round = state[ROUND_AT];
    write_state(state, process, n, t, round, MARK_DECIDED, value);
}

// Writes the state of a process that ends the round undecided, with this estimate.
fn go_on(state: &mut [u8], estimate: u32)
    requires { RoundFits state.old }
    ensures { state.new ≡ state_bytes (state_after (state_from state.old) (continues estimate)) }
{
    let process = state[PROCESS_AT];
    let n = state[PROCESSES_AT];
    let t = state[RESILIENCE_AT];
    let round = state[ROUND_AT];
    if round == t + 1 {
        write_state(state, process, n, t, round, MARK_OVER, estimate);
    } else {
        write_state(state, process, n, t, round + 1, MARK_OPEN, estimate);
    }
}

// Writes the state of an open process after a round in which these messages were received.
// The value is read only where it is kept, since a read of four bytes waits for stores of single bytes before it.
pub fn close_on(state: &mut [u8], messages: Messages)
    requires { RoundFits state.old }
    ensures { state.new ≡ state_bytes (closed_on (state_from state.old) (messages_as messages)) }
{
    let process = state[PROCESS_AT];
    let round = state[ROUND_AT];
    if process == round {
        let value = number_at(state, VALUE_AT);
        decide(state, value);
        return;
    }
    match messages {
        Messages::Nothing => {
            let value = number_at(state, VALUE_AT);
            go_on(state, value);
        }
        Messages::Estimate(v) => go_on(state, v),
        Messages::EstimateAndCommit(v) => decide(state, v),
    }
}
