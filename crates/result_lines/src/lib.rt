// The bytes of the lines of a result and of a refusal (document 01, 'The result'; document 02, Paper 2), before they are digits.
#![tactic(auto)]

ghost use Rattle.std.specs.Prelude.{◌≡◌, [], ◌∷◌, ◌++◌};
ghost use Rattle.general.specs.BigEndian.{bytes_of};
ghost use Rattle.answers.specs.ResultLine.{end_bytes};

use consensus::State;

// The kinds of the lines: a process's, the last one, and a refusal's.
const PROCESS_LINE: u8 = 0x11;

const LAST_LINE: u8 = 0x12;

const REFUSAL_LINE: u8 = 0x1F;

// The ends of a process on its line (document 01, 'The result'): decided 01, dark 02. No result has 00, the end of one that is up and undecided.
const UNDECIDED: u8 = 0;

const DECIDED: u8 = 1;

const CRASHED: u8 = 2;

// The bytes of a process's line: its state, and the messages that it sent.
pub fn process_bytes(p: u8, state: State, data: u8, commits: u8) -> [u8; 10]
    ensures { result ≡ 0x11 ∷ p ∷ end_bytes state ++ («data» ∷ commits ∷ []) }
{
    let (end, round, value) = match state {
        State::Undecided(value) => (UNDECIDED, 0, value),
        State::Decided(round, value) => (DECIDED, round, value),
        State::Crashed(round) => (CRASHED, round, 0),
    };
    let [v, w, x, y] = value.to_be_bytes();
    [PROCESS_LINE, p, end, round, v, w, x, y, data, commits]
}

// The bytes of the last line.
pub fn last_bytes(rounds: u8, f: u8, speakers: u8, data_sent: u16, commits_sent: u16) -> [u8; 8]
    ensures { result ≡ 0x12 ∷ rounds ∷ f ∷ speakers ∷ bytes_of 2 data_sent ++ bytes_of 2 commits_sent }
{
    let [v, w] = data_sent.to_be_bytes();
    let [x, y] = commits_sent.to_be_bytes();
    [LAST_LINE, rounds, f, speakers, v, w, x, y]
}

// The bytes of a refusal's line.
pub fn refusal_bytes(number: u8, line: u16) -> [u8; 4]
    ensures { result ≡ 0x1F ∷ number ∷ bytes_of 2 line }
{
    let [high, low] = line.to_be_bytes();
    [REFUSAL_LINE, number, high, low]
}
