// replay: stored tickets, well formed and damaged, each run over the proved library; what it answers, and then an empty line.
// On standard input a line for each ticket: the output buffer's length in two bytes, then the ticket's bytes.
// The second implementation writes the tickets and what is to be written for them: `make-tickets` of second/.
#![tactic(auto)]

ghost use Rattle.std.specs.Prelude.{◌≡◌, ◌≤◌, length, IfOk};
ghost use Rattle.answers.specs.Reply.{reply_of};
ghost use Rattle.replay.specs.code.RanIn.{RanIn};
ghost use Rattle.replay.specs.code.Untouched.{untouched};

use lines::Cursor;
use refusals::Refused;
use std::io;
use std::io::{Read, Stdin, Stdout, Write};

// The most bytes of a stored ticket: some more than a ticket may have.
const TICKET_ROOM: usize = 4200;

// The longest output buffer: some more than the result of 64 processes takes.
const OUTPUT_ROOM: usize = 1500;

// What an output buffer holds before a call: a byte that no result has.
const FILLING: u8 = 165;

// Whether a part of a buffer still holds its filling.
fn is_untouched(part: &[u8]) -> bool
    ensures { result ≡ untouched part.now }
{
    part.iter().all(|byte| *byte == FILLING)
}

// Writes the line `changed` where a part of a buffer has another byte than its filling.
fn write_changed(stdout: &mut Stdout, part: &[u8]) -> io::Result<()> {
    if !is_untouched(part) {
        stdout.write_all(b"changed\n")?;
    }
    Ok(())
}

// Writes the line of a refusal.
fn write_refusal(stdout: &mut Stdout, refused: Refused) -> io::Result<()> {
    let mut text = [0u8; result::REFUSAL_LINE_SIZE];
    result::put_refusal(&mut text, u8::from(refused.refusal), refused.line);
    stdout.write_all(&text)
}

// Runs a ticket with the first `room` bytes of a buffer as its output.
fn run_in(ticket: &[u8], out: &mut [u8], room: usize) -> Result<usize, Refused>
    requires { room ≤ length out.old }
    ensures { RanIn ticket.now room out.old out.new (reply_of result) }
{
    running::run_ticket(ticket, &mut out[..room])
}

// Runs a ticket with an output of `wanted` bytes, or of as many as there is room for, and writes what it answers. The bytes past a result,
// and all bytes after a refusal, must still be the filling.
fn answer(stdout: &mut Stdout, ticket: &[u8], wanted: usize) -> io::Result<()> {
    let mut out = [FILLING; OUTPUT_ROOM];
    let room = wanted.min(OUTPUT_ROOM);
    match run_in(ticket, &mut out, room) {
        Ok(size) => {
            let (written, rest) = out.split_at(size);
            stdout.write_all(written)?;
            write_changed(stdout, rest)?;
        }
        Err(refused) => {
            write_refusal(stdout, refused)?;
            write_changed(stdout, &out)?;
        }
    }
    stdout.write_all(b"\n")
}

// The byte that two digits stand for. (The mark of another character would count as 0; no line has one.)
fn byte_of(high: u8, low: u8) -> u8 {
    digits::value_by_table(high) % 16 * 16 + digits::value_by_table(low) % 16
}

// The bytes of pairs of digits, to the front of a buffer. What they are is seen in what the program writes.
fn take_bytes(digits: &[u8], bytes: &mut [u8]) {
    for (byte, pair) in bytes.iter_mut().zip(digits.chunks_exact(2)) {
        *byte = byte_of(pair[0], pair[1]);
    }
}

// Replays the ticket of one line, by its digits. Answers false where the line is too short for the length, or its ticket too long for the buffer.
fn replay_line(stdout: &mut Stdout, digits: &[u8]) -> io::Result<bool> {
    let Some((length, digits)) = digits.split_at_checked(4) else {
        return Ok(false);
    };
    let mut wanted = [0u8; 2];
    take_bytes(length, &mut wanted);
    let mut buffer = [0u8; TICKET_ROOM];
    let Some(ticket) = buffer.get_mut(..digits.len() / 2) else {
        return Ok(false);
    };
    take_bytes(digits, ticket);
    answer(stdout, ticket, usize::from(u16::from_be_bytes(wanted)))?;
    Ok(true)
}

// Replays line after line, up to the end or to the first that cannot be replayed.
#[tactic(auto, using(crate::proofs::LeadsOn::leads_on))]
fn replay(stdout: &mut Stdout, text: &[u8]) -> io::Result<()> {
    let mut here = Cursor { at: 0 };
    while let Some((line, next)) = here.read(text) {
        if !replay_line(stdout, &text[here.at..here.at + 2 * line.size])? {
            return Ok(());
        }
        here = next;
    }
    Ok(())
}

// Room for all stored tickets: a mebibyte.
// A function of its own, since with the array made in `main` the check runs out of stack.
fn storage() -> [u8; 1048576]
    ensures { 1048576 ≡ length result }
{
    [0; 1048576]
}

// Reads until the buffer is full or the input ends: how many bytes there are.
// By hand, since the library's `read_to_end` reads into a Vec, which would want a heap.
fn read_full(stdin: &mut Stdin, buffer: &mut [u8]) -> io::Result<usize>
    ensures { IfOk result (λ size. size ≤ length buffer.new) }
{
    let mut at = 0;
    while at < buffer.len() {
        let n = stdin.read(&mut buffer[at..])?;
        if n == 0 {
            return Ok(at);
        }
        at += n;
    }
    Ok(at)
}

// What is not read is not answered, and the gate sees that it is missing.
fn main(rt: HostRuntime) -> io::Result<()> {
    let mut buffer = storage();
    let size = read_full(&mut rt.stdin(), &mut buffer)?;
    replay(&mut rt.stdout(), &buffer[..size])
}
