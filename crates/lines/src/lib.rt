// The lines of a text: a cursor that reads one line by the table of digit values, once, into numbers.
#![tactic(auto)]

ghost use Rattle.std.specs.Prelude.{◌≡◌, ◌<◌, length};
ghost use Rattle.lines.specs.code.Read.{read_at};
ghost use Rattle.lines.specs.code.Scanned.{Scanned, Stops};

use digits::value_by_table;

// The mark of a byte that is no digit, @ or 64: more than the values of two digits add up to.
const NO_DIGIT: u8 = b'@';

// The byte that closes a line, 0A.
const LINE_END: u8 = b'\n';

// How far the digits of a line make bytes, and the last sixteen of these bytes as two words.
#[derive(Clone, Copy)]
struct Digits {
    end: usize,
    head: u64,
    tail: u64,
}

// Reads the digits from `at` on, where a character stands, two at a time; one test of their sum is a test of both.
fn read_digits(text: &[u8], at: usize) -> Digits
    requires { at < length text.now }
    ensures { Scanned text.now at result.end result.head result.tail × Stops text.now result.end }
{
    let mut end = at;
    let mut head: u64 = 0;
    let mut tail: u64 = 0;
    // A `while`, since by a `for` over `as_chunks::<2>()`, proved too, reading a ticket takes 16 to 25 % more time.
    while end < text.len() - 1 {
        let high = value_by_table(text[end]);
        let low = value_by_table(text[end + 1]);
        if NO_DIGIT <= high + low {
            break;
        }
        head = (head << 8) | (tail >> 56);
        tail = (tail << 8) | ((u64::from(high) << 4) | u64::from(low));
        end += 2;
    }
    Digits { end, head, tail }
}

// A line of `size` bytes, the last sixteen of them as two words.
#[derive(Clone, Copy)]
pub struct Line {
    pub size: usize,
    pub head: u64,
    pub tail: u64,
}

// The place at which the next line begins.
#[derive(Clone, Copy)]
pub struct Cursor {
    pub at: usize,
}

impl Cursor {
    // The line at the cursor's place, and the cursor past its 0A; none where no line begins there.
    // It looks at most one character behind the first that is no digit.
    pub fn read(self, text: &[u8]) -> Option<(Line, Cursor)>
        ensures { result ≡ read_at text.now self.at }
    {
        let at = self.at;
        if text.len() <= at {
            return None;
        }
        let Digits { end, head, tail } = read_digits(text, at);
        if text.len() <= end || text[end] != LINE_END || end == at {
            return None;
        }
        let line = Line {
            size: (end - at) / 2,
            head,
            tail,
        };
        Some((line, Cursor { at: end + 1 }))
    }
}
