// The refusals of calls (document 01, 'Refused calls'; document 02, Papers 7 and 9), and where in a ticket each is.
#![tactic(auto)]

ghost use Rattle.std.specs.Prelude.{◌≡◌};
ghost use Rattle.refusals.specs.Number.{number_of};

// Why a call is refused, by the papers' numbers.
#[derive(Clone, Copy, Debug, PartialEq, Eq)]
pub enum Refusal {
    // The ticket has more than 4,096 bytes.
    TicketTooLong = 1,
    // Not an even, non-zero count of digits, closed by 0A.
    NoLine = 2,
    // A kind of line not allowed here, a wrong length for its kind, or the ticket over before its 04.
    WrongLine = 3,
    // n or t outside the limits.
    OutsideLimits = 4,
    // Not the proposal of the next process.
    NotNextProposal = 5,
    // More than t failure lines.
    TooManyCrashes = 6,
    // Process not within 1 to n or not rising, round not within 1 to t + 1, or a step above 02.
    CrashMisplaced = 7,
    // Step 01 or 02 in another round than the process's own, or a set or count against its step.
    CrashUnsuited = 8,
    // The output is too short.
    OutputTooShort = 9,
    // n, t or process outside the limits, not nine bytes of state, or not a valid state.
    InvalidState = 10,
    // The process has decided, or its rounds are over.
    NotOpen = 11,
    // Heard bytes that are not nothing, data, or data then commit of this round; or any byte in its own round.
    WrongFrames = 12,
    // No such process or no such round.
    NoSuchReason = 13,
    // No tender lines, or more than 200.
    WrongLineCount = 14,
    // A direct cost above 1,000,000,000 pence.
    CostTooHigh = 15,
    // The process decides nothing.
    NoQuote = 16,
}

impl From<Refusal> for u8 {
    ghost from_gives = { λ refusal number. number ≡ number_of refusal };

    fn from(refusal: Refusal) -> u8 {
        refusal as u8
    }
}

// A refusal and the first wrong line, counted from 1 (0 if no line is wrong).
#[derive(Clone, Copy, Debug, PartialEq, Eq)]
pub struct Refused {
    pub refusal: Refusal,
    pub line: u16,
}

impl Refusal {
    // The refusal of this line.
    pub fn at_line(self, line: u16) -> Refused
        ensures { result ≡ record { refusal = self; line = line } }
    {
        Refused {
            refusal: self,
            line,
        }
    }
}

// A refusal that concerns no line.
impl From<Refusal> for Refused {
    ghost from_gives = { λ refusal refused. refused ≡ record { refusal = refusal; line = 0 } };

    fn from(refusal: Refusal) -> Refused {
        refusal.at_line(0)
    }
}
