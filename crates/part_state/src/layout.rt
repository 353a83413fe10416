// The nine bytes of a state: station, n, t, round, mark, value (document 01, 'The desk part').
ghost use Rattle.std.specs.Prelude.{◌≡◌, length};
ghost use Rattle.part_format.specs.PartState.{state_bytes};

use part_bytes::write_number;

// How many bytes a state has.
pub const STATE_SIZE: usize = 9;

// The places of its fields; the value takes four bytes.
pub const PROCESS_AT: usize = 0;

pub const PROCESSES_AT: usize = 1;

pub const RESILIENCE_AT: usize = 2;

pub const ROUND_AT: usize = 3;

pub const MARK_AT: usize = 4;

pub const VALUE_AT: usize = 5;

// The marks: up and undecided (open), decided, undecided after the last round (rounds over).
pub const MARK_OPEN: u8 = 0;

pub const MARK_DECIDED: u8 = 1;

pub const MARK_OVER: u8 = 2;

// Writes the nine bytes of a state, the value first: its four stores alone are then compiled to one.
pub fn write_state(state: &mut [u8], process: u8, n: u8, t: u8, round: u8, mark: u8, value: u32)
    requires { length state.old ≡ 9 }
    ensures { state.new ≡ state_bytes (record { process = process; processes = n; resilience = t; round = round; mark = mark; value = value }) }
{
    write_number(state, VALUE_AT, value);
    state[PROCESS_AT] = process;
    state[PROCESSES_AT] = n;
    state[RESILIENCE_AT] = t;
    state[ROUND_AT] = round;
    state[MARK_AT] = mark;
}
