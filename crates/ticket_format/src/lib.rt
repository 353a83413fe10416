// What document 01 says of tickets: their lines, what is read of them and their refusals, as definitions (specs/), with the rows that pin them.
// The types are those that the definitions and the code share.
#![tactic(auto)]

// The bytes of a failure line behind its kind: station, round, step, set, in which bit j - 1 stands for process j, and count.
#[derive(Clone, Copy, Debug, PartialEq, Eq)]
pub struct FailureLine {
    pub process: u8,
    pub round: u8,
    pub step: u8,
    pub reached: u64,
    pub count: u8,
}

// Where in a ticket a line behind the header stands.
#[derive(Clone, Copy, Debug, PartialEq, Eq)]
pub enum Place {
    // After so many proposal lines.
    Proposals(u8),
    // After so many failure lines, the last of them of this process (0 if there was none).
    Failures(u8, u8),
    // Past the 04.
    Ended,
}
