// Lines of hexadecimal text (document 01, 'The result': "in hexadecimal, each closed by 0A"), of any length, each written to the front of a part of the
// output.
#![tactic(auto)]

ghost use Rattle.std.specs.Prelude.{◌≡◌, ◌++◌, ◌+◌, ◌/◌, ◌%◌, ◌≤◌, ◌<◌, length, set, drop};
ghost use Rattle.text.specs.HexText.{digit_of, hex_line, line_size};

// The digits by value.
static LETTERS: [u8; 16] = *b"0123456789ABCDEF";

// The byte that closes a line.
const LINE_END: u8 = 0x0A;

// Two digits at a place.
fn put_byte(out: &mut [u8], at: usize, b: u8)
    requires { at + 1 < length out.old }
    ensures { out.new ≡ set (set out.old at (digit_of (b / 16))) (at + 1) (digit_of (b % 16)) }
{
    out[at] = LETTERS[usize::from(b / 16)];
    out[at + 1] = LETTERS[usize::from(b % 16)];
}

// The line of some bytes at the front of a part of the output.
pub fn put_line(out: &mut [u8], bytes: &[u8])
    requires { line_size (length bytes.now) ≤ length out.old }
    ensures { out.new ≡ hex_line bytes.now ++ drop (line_size (length bytes.now)) out.old }
{
    for (i, b) in bytes.iter().enumerate() {
        put_byte(out, 2 * i, *b);
    }
    out[2 * bytes.len()] = LINE_END;
}
