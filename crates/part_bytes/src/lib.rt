// Numbers as four bytes at a place, most significant byte first (document 01, 'The desk part': the value of a state and of a data frame).
#![tactic(auto)]

ghost use Rattle.std.specs.Prelude.{◌≡◌, ◌+◌, ◌≤◌, length, take, drop};
ghost use Rattle.std.proofs.lemmas.List.Edits.{sets};
ghost use Rattle.general.specs.BigEndian.{number, bytes_of};

// The number that the four bytes from `at` on stand for.
pub fn number_at(b: &[u8], at: usize) -> u32
    requires { at + 4 ≤ length b.now }
    ensures { result ≡ number (take 4 (drop at b.now)) }
{
    u32::from_be_bytes([b[at], b[at + 1], b[at + 2], b[at + 3]])
}

// Writes a number as four bytes from `at` on.
pub fn write_number(b: &mut [u8], at: usize, value: u32)
    requires { at + 4 ≤ length b.old }
    ensures { b.new ≡ sets b.old at (bytes_of 4 value) }
{
    let third = value / 256;
    let second = third / 256;
    let first = second / 256;
    b[at] = (first % 256) as u8;
    b[at + 1] = (second % 256) as u8;
    b[at + 2] = (third % 256) as u8;
    b[at + 3] = (value % 256) as u8;
}
