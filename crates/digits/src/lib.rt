// The table of digit values (document 02, Paper 3).
#![tactic(auto)]

ghost use Rattle.std.specs.Prelude.{◌≡◌, get_or};
ghost use Rattle.text.specs.Digit.{digit_table};

// The value of each byte as a digit, or the mark of a byte that is none, @ or 64. A row has sixteen entries: 0 to 9 have theirs in the fourth row, A to F in the
// fifth, written \x0A to \x0F, and a to f in the seventh, written \x0a to \x0f.
static DIGIT_VALUES: [u8; 256] = *b"\
    @@@@@@@@@@@@@@@@\
    @@@@@@@@@@@@@@@@\
    @@@@@@@@@@@@@@@@\
    \x00\x01\x02\x03\x04\x05\x06\x07\x08\x09@@@@@@\
    @\x0A\x0B\x0C\x0D\x0E\x0F@@@@@@@@@\
    @@@@@@@@@@@@@@@@\
    @\x0a\x0b\x0c\x0d\x0e\x0f@@@@@@@@@\
    @@@@@@@@@@@@@@@@\
    @@@@@@@@@@@@@@@@\
    @@@@@@@@@@@@@@@@\
    @@@@@@@@@@@@@@@@\
    @@@@@@@@@@@@@@@@\
    @@@@@@@@@@@@@@@@\
    @@@@@@@@@@@@@@@@\
    @@@@@@@@@@@@@@@@\
    @@@@@@@@@@@@@@@@";

// The table, whole.
pub fn digit_table() -> [u8; 256]
    ensures { result ≡ digit_table }
{
    DIGIT_VALUES
}

// What a table has for a byte. By the table of digits that is its value, 0 to 15, or the mark.
#[inline(always)]
pub fn digit_value(values: &[u8; 256], c: u8) -> u8
    ensures { result ≡ get_or values.now c 0 }
{
    values[usize::from(c)]
}

// What the table of digits has for a byte. The table is looked up where it stands: it is neither made anew nor lent.
#[inline(always)]
pub fn value_by_table(c: u8) -> u8
    ensures { result ≡ get_or digit_table c 0 }
{
    digit_value(&DIGIT_VALUES, c)
}
