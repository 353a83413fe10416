// The process part: starting, speaking and closing a round over nine lent bytes (document 01, 'The desk part' and 'Refused calls').
// Each operation is total. Its answer and every byte afterwards, on refusals too, are given by the definitions of part_format.
#![tactic(auto)]

mod closing;

ghost use Rattle.std.specs.Prelude.{◌≡◌, length};
ghost use Rattle.part_format.specs.Start.{start_refusal, start_bytes};
ghost use Rattle.part_format.specs.Speak.{speak_answer, speak_output};
ghost use Rattle.part_format.specs.Close.{close_refusal, close_state};

use closing::close_on;
use part_bytes::number_at;
use part_frames::{FRAMES_SIZE, Heard, heard_by, write_frames};
use part_state::check::{identity_valid, state_refusal};
use part_state::layout::{MARK_OPEN, PROCESS_AT, ROUND_AT, STATE_SIZE, VALUE_AT, write_state};

// Starts a process in round 1, open, with its proposal: 0, or refusal 10.
pub fn start(process: u64, n: u64, t: u64, value: u32, state: &mut [u8]) -> u64
    ensures value { result ≡ start_refusal process n t state.old }
    ensures state_after { state.new ≡ start_bytes process n t value state.old }
{
    if state.len() != STATE_SIZE {
        return 10;
    }
    if !identity_valid(process, n, t) {
        return 10;
    }
    write_state(state, process as u8, n as u8, t as u8, 1, MARK_OPEN, value);
    0
}

// Yields data then commit in the process's own round: the count of bytes yielded, 0 or 8; or refusal 9, 10 or 11.
pub fn speak(state: &[u8], output: &mut [u8]) -> u64
    ensures value { result ≡ speak_answer state.now (length output.old) }
    ensures output_after { output.new ≡ speak_output state.now output.old }
{
    let refusal = state_refusal(state);
    if refusal != 0 {
        return refusal;
    }
    let process = state[PROCESS_AT];
    let round = state[ROUND_AT];
    if process != round {
        return 0;
    }
    if output.len() < FRAMES_SIZE {
        return 9;
    }
    let value = number_at(state, VALUE_AT);
    write_frames(output, round, value);
    FRAMES_SIZE as u64
}

// Closes the round on what was heard: 0, or refusal 10, 11 or 12.
pub fn close(state: &mut [u8], heard: &[u8]) -> u64
    ensures value { result ≡ close_refusal state.old heard.now }
    ensures state_after { state.new ≡ close_state state.old heard.now }
{
    let refusal = state_refusal(state);
    if refusal != 0 {
        return refusal;
    }
    let Heard::Form(messages) = heard_by(state, heard) else {
        return 12;
    };
    close_on(state, messages);
    0
}
