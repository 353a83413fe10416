// The frames of a round's messages (document 01, 'The desk part': "nothing, data, or data then commit"): read and written.
#![tactic(auto)]

ghost use Rattle.std.specs.Prelude.{◌≡◌, ◌++◌, ◌&&◌, ◌+◌, ◌≤◌, length, get_or, drop, eqb};
ghost use Rattle.coordinator.specs.Message.{estimate_and_commit};
ghost use Rattle.part_format.specs.PartState.{state_from};
ghost use Rattle.part_format.specs.Frame.{frames_of, messages_from, heard_by};
ghost use Rattle.part_frames.specs.code.Heard.{heard_as};

use part_bytes::{number_at, write_number};
use part_state::layout::{PROCESS_AT, ROUND_AT};

// The kinds of frames, their first byte.
const DATA_FRAME: u8 = 0x21;

const COMMIT_FRAME: u8 = 0x22;

// How many bytes a data frame has, and data then commit.
const DATA_SIZE: usize = 6;

pub const FRAMES_SIZE: usize = 8;

// Where the frames start in data then commit, and where their fields stand.
const DATA_AT: usize = 0;

const DATA_ROUND_AT: usize = 1;

const DATA_VALUE_AT: usize = 2;

const COMMIT_AT: usize = 6;

const COMMIT_ROUND_AT: usize = 7;

// The messages of a round.
#[derive(Clone, Copy)]
pub enum Messages {
    Nothing,
    Estimate(u32),
    EstimateAndCommit(u32),
}

// What bytes heard are: one of the three forms, or none of them.
#[derive(Clone, Copy)]
pub enum Heard {
    Form(Messages),
    NoForm,
}

// Whether a frame of this kind and round starts at `at`.
fn starts_frame(b: &[u8], at: usize, kind: u8, round: u8) -> bool
    requires { at + 2 ≤ length b.now }
    ensures { result ≡ eqb (get_or b.now at 0) kind && eqb (get_or b.now (at + 1) 0) round }
{
    if b[at] != kind {
        return false;
    }
    b[at + 1] == round
}

// The messages that bytes carry in a round.
fn read_heard(round: u8, heard: &[u8]) -> Heard
    ensures { heard_as result ≡ messages_from round heard.now }
{
    if heard.len() == 0 {
        return Heard::Form(Messages::Nothing);
    }
    if heard.len() == DATA_SIZE {
        if !starts_frame(heard, DATA_AT, DATA_FRAME, round) {
            return Heard::NoForm;
        }
        return Heard::Form(Messages::Estimate(number_at(heard, DATA_VALUE_AT)));
    }
    if heard.len() != FRAMES_SIZE {
        return Heard::NoForm;
    }
    if !starts_frame(heard, DATA_AT, DATA_FRAME, round) {
        return Heard::NoForm;
    }
    if !starts_frame(heard, COMMIT_AT, COMMIT_FRAME, round) {
        return Heard::NoForm;
    }
    Heard::Form(Messages::EstimateAndCommit(number_at(heard, DATA_VALUE_AT)))
}

// The messages that a process takes in the round that it is in; in its own round no byte.
pub fn heard_by(state: &[u8], heard: &[u8]) -> Heard
    requires { length state.now ≡ 9 }
    ensures { heard_as result ≡ heard_by (state_from state.now) heard.now }
{
    let process = state[PROCESS_AT];
    let round = state[ROUND_AT];
    if process != round {
        return read_heard(round, heard);
    }
    if heard.len() != 0 {
        return Heard::NoForm;
    }
    Heard::Form(Messages::Nothing)
}

// Writes data then commit of a round, eight bytes; what follows them stays.
pub fn write_frames(output: &mut [u8], round: u8, value: u32)
    requires { 8 ≤ length output.old }
    ensures { output.new ≡ frames_of round (estimate_and_commit value) ++ drop 8 output.old }
{
    output[DATA_AT] = DATA_FRAME;
    output[DATA_ROUND_AT] = round;
    write_number(output, DATA_VALUE_AT, value);
    output[COMMIT_AT] = COMMIT_FRAME;
    output[COMMIT_ROUND_AT] = round;
}
