// simulate: a ticket on standard input, its result or the line of its refusal on standard output (document 01, 'The result').
// A thin program over the proved library. What is to be written is proved; that the two system calls read and write it no contract
// can say: the gate compares what the program writes. What goes wrong with them is told on standard error.
#![tactic(auto)]

ghost use Rattle.std.specs.Prelude.{◌≡◌, ◌<◌, ◌≤◌, length, take, IfOk};
ghost use Rattle.answers.specs.ResultLine.{result_size};
ghost use Rattle.answers.specs.Running.{program_writes};
ghost use Rattle.ticket_format.specs.Ticket.{ticket_limit};

use std::env::{Env, FillError};
use std::io;
use std::io::{Read, Write};

// Room for a ticket and one byte more (document 01: at most 4,096 bytes), and for the result of 64 processes.
const TICKET_ROOM: usize = 4097;

const RESULT_ROOM: usize = 1361;

// Says on standard error which stream failed, and how.
fn tell(rt: &HostRuntime, stream: &str, error: io::Error) {
    let _said = eprintln!(rt; "simulate: {stream}: {error}").is_ok();
}

// Reads until the input ends or the buffer is full: how many bytes. One read that fails makes the whole input unreadable: half a ticket is none.
// The buffer has room for more bytes than a ticket may have, so that a longer text is refused however long it is.
fn read_input(rt: &HostRuntime, buffer: &mut [u8]) -> io::Result<usize>
    requires { ticket_limit < length buffer.old }
    ensures { IfOk result (λ size. size ≤ length buffer.old) }
{
    let mut stdin = rt.stdin();
    let mut at = 0;
    while at < buffer.len() {
        let n = stdin.read(&mut buffer[at..])?;
        if n == 0 {
            return Ok(at);
        }
        at += n;
    }
    Ok(at)
}

// Writes bytes, and says so on standard error where they cannot be written.
fn write_bytes(rt: &HostRuntime, bytes: &[u8]) {
    let mut stdout = rt.stdout();
    if let Err(error) = stdout.write_all(bytes) {
        tell(rt, "standard output", error);
    }
}

// Runs a ticket and leaves what is to be written for it at the front of a buffer; answers how many bytes that is.
fn answer_text(text: &[u8], out: &mut [u8]) -> usize
    requires { length out.old ≡ result_size 64 }
    ensures upper_bound { result ≤ length out.old }
    ensures out_after { take result out.new ≡ program_writes text.now }
{
    match running::run_ticket(text, out) {
        Ok(size) => size,
        Err(refused) => {
            result::put_refusal(out, u8::from(refused.refusal), refused.line);
            result::REFUSAL_LINE_SIZE
        }
    }
}

// Runs a ticket and writes what it answers.
fn answer(rt: &HostRuntime, text: &[u8]) {
    let mut out = [0u8; RESULT_ROOM];
    let size = answer_text(text, &mut out);
    write_bytes(rt, &out[..size]);
}

// Answers the ticket on standard input. A failed read writes nothing to standard output.
fn answer_input(rt: &HostRuntime) {
    let mut buffer = [0u8; TICKET_ROOM];
    match read_input(rt, &mut buffer) {
        Ok(size) => answer(rt, &buffer[..size]),
        Err(error) => tell(rt, "standard input", error),
    }
}

// Whether the program is called with words behind its name.
fn has_arguments(rt: &HostRuntime) -> bool {
    let mut word = [0u8; 1];
    !matches!(rt.arg(1, &mut word), Err(FillError::NotPresent))
}

// A call with arguments is a mistake, as of somebody who names a file: standard input is not waited for.
fn main(rt: HostRuntime) {
    if has_arguments(&rt) {
        let _said = eprintln!(rt;
            "simulate: no arguments are taken. usage: simulate < TICKET > RESULT"
        ).is_ok();
        return;
    }
    answer_input(&rt);
}
