// The problem, whatever protocol solves it: definitions and laws (specs/, proofs/), and the types that the definitions and the code share.
#![tactic(auto)]

// The steps of a failure line (document 01, 'The ticket': 00, 01 and 02), as `point_from` reads them.
pub const BEFORE_SENDING: u8 = 0;

pub const DURING_DATA: u8 = 1;

pub const DURING_COMMITS: u8 = 2;

// How far a process gets with sending in the round in which it crashes (document 01: the step of a failure line).
#[derive(Clone, Copy, Debug, PartialEq, Eq)]
pub enum CrashPoint {
    // Step 00: it crashes before it sends anything.
    BeforeSending,
    // Step 01: it crashes while sending data, which only the processes of this set receive.
    DuringData(u64),
    // Step 02: all its data messages and this many of its commit messages leave.
    DuringCommits(u8),
}

// What the failure pattern says of one process (document 01: no failure line, or its failure line): it is correct, or it crashes in this round at this point
// if it is still up and undecided then.
#[derive(Clone, Copy, Debug, PartialEq, Eq)]
pub enum Fault {
    Correct,
    Crashes(u8, CrashPoint),
}

// A process between two rounds: up and undecided with its estimate; decided in this round on this value; crashed in this round (document 01: dark).
#[derive(Clone, Copy, Debug, PartialEq, Eq)]
pub enum State {
    Undecided(u32),
    Decided(u8, u32),
    Crashed(u8),
}
