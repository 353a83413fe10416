// Which states are valid and open (document 01, 'Refused calls', refusals 10 and 11).
ghost use Rattle.std.specs.Prelude.{◌≡◌, ◌<◌, length, get_or};
ghost use Rattle.part_format.specs.PartState.{mark_open, identity_valid, round_valid, fields_valid, state_refusal};

use crate::layout::{
    MARK_AT, MARK_OPEN, MARK_OVER, PROCESS_AT, PROCESSES_AT, RESILIENCE_AT, ROUND_AT, STATE_SIZE,
};

// n, t and the process within the limits; a process from 1 to n leaves no n below 1.
pub fn identity_valid(process: u64, n: u64, t: u64) -> bool
    ensures { result ≡ identity_valid process n t }
{
    if n <= t {
        return false;
    }
    if 64 < n {
        return false;
    }
    if process < 1 {
        return false;
    }
    process <= n
}

// A round that goes with its mark.
fn round_valid(process: u64, t: u64, round: u64, mark: u8) -> bool
    requires { t < 64 }
    ensures { result ≡ round_valid process t round mark }
{
    let last = t + 1;
    if mark == MARK_OVER {
        if round != last {
            return false;
        }
        return last < process;
    }
    if round < 1 {
        return false;
    }
    if last < round {
        return false;
    }
    round <= process
}

// The bytes of a valid state, its value apart.
fn fields_valid(process: u64, n: u64, t: u64, round: u64, mark: u8) -> bool
    ensures { result ≡ fields_valid process n t round mark }
{
    if !identity_valid(process, n, t) {
        return false;
    }
    if MARK_OVER < mark {
        return false;
    }
    round_valid(process, t, round, mark)
}

// The bytes of a valid open state, in the fewest tests: rounds from 1 leave no process and no n below 1.
fn open_valid(process: u64, n: u64, t: u64, round: u64) -> bool
    requires { t < 256 }
    ensures { result ≡ fields_valid process n t round mark_open }
{
    let last = t + 1;
    if round < 1 {
        return false;
    }
    if last < round {
        return false;
    }
    if process < round {
        return false;
    }
    if n < process {
        return false;
    }
    if n < last {
        return false;
    }
    n <= 64
}

// The refusal of a state that is not open: 11 if it is valid, else 10.
fn ended_refusal(state: &[u8]) -> u64
    requires state_len { length state.now ≡ 9 }
    requires nonzero { 0 < get_or state.now 4 0 }
    ensures { result ≡ state_refusal state.now }
{
    let process = state[PROCESS_AT] as u64;
    let n = state[PROCESSES_AT] as u64;
    let t = state[RESILIENCE_AT] as u64;
    let round = state[ROUND_AT] as u64;
    let mark = state[MARK_AT];
    if fields_valid(process, n, t, round, mark) {
        return 11;
    }
    10
}

// The refusal that speaking and closing share: 10, 11, or 0 for none.
pub fn state_refusal(state: &[u8]) -> u64
    ensures { result ≡ state_refusal state.now }
{
    if state.len() != STATE_SIZE {
        return 10;
    }
    if state[MARK_AT] != MARK_OPEN {
        return ended_refusal(state);
    }
    let round = state[ROUND_AT] as u64;
    let t = state[RESILIENCE_AT] as u64;
    let n = state[PROCESSES_AT] as u64;
    let process = state[PROCESS_AT] as u64;
    if open_valid(process, n, t, round) {
        return 0;
    }
    10
}
