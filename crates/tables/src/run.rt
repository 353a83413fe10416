// The table that a run is kept in.
ghost use Rattle.std.specs.Prelude.{◌≡◌, ◌≤◌, ◌-◌, get_or};
ghost use Rattle.tables.specs.code.InitialTable.{initial_table};
ghost use Rattle.tables.specs.code.RunOfTable.{state_by_end};

use consensus::State;

// The ends of a process in a table: 01 and 02 as document 01 writes them ('The result'), and 00 for a process that is up and undecided.
// They are numbers since a run's table has flat arrays of numbers (document 01, 'The forms we use'); `state` answers the state that they stand for.
pub const UNDECIDED: u8 = 0;

pub const DECIDED: u8 = 1;

pub const CRASHED: u8 = 2;

// Document 01, 'The ticket': "the table of 64 stations, with each one's value, round and end"; how many of them there are, and what the run has counted.
// The arrays stand first, at places that 16 divides: with n before them 63 crashes before sending took a tenth to a fifth longer.
// `undecided` is the set of those of the n processes that are up and undecided: bit p - 1 just if end p is 00 (a place above n has end 00 and no bit).
#[derive(Clone, Copy)]
pub struct RunTable {
    pub ends: [u8; 64],
    pub end_rounds: [u8; 64],
    pub values: [u32; 64],
    pub n: u8,
    pub rounds: u8,
    pub speakers: u8,
    pub data_sent: u16,
    pub commits_sent: u16,
    pub undecided: u64,
}

// The run before round 1: every process holds its proposal.
pub fn initial_run(n: u8, values: [u32; 64]) -> RunTable
    requires { (1 ≤ n) × (n ≤ 64) }
    ensures { result ≡ initial_table n values }
{
    RunTable {
        ends: [UNDECIDED; 64],
        end_rounds: [0; 64],
        values,
        n,
        rounds: 0,
        speakers: 0,
        data_sent: 0,
        commits_sent: 0,
        undecided: sets::first_processes(n),
    }
}

impl RunTable {
    // The state of process p (document 01: up and undecided, decided, dark).
    // Round and value are read in any case, so that a loop over states can be vectorized: the reasons took an eighth of the instructions.
    #[inline(always)]
    pub fn state(&self, p: u8) -> State
        requires { (1 ≤ p) × (p ≤ 64) }
        ensures { result
            ≡ state_by_end (get_or self.now.ends (p - 1) 0) (get_or self.now.end_rounds (p - 1) 0)
            (get_or self.now.values (p - 1) 0) }
    {
        let i = (p - 1) as usize;
        let (round, value) = (self.end_rounds[i], self.values[i]);
        match self.ends[i] {
            UNDECIDED => State::Undecided(value),
            DECIDED => State::Decided(round, value),
            _ => State::Crashed(round),
        }
    }
}
