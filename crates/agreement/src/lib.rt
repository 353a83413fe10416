// The module's C interface (include/agreement.h): every call total on every input, its answer a documented number.
#![tactic(auto)]

ghost use Rattle.std.specs.Prelude.{◌≡◌, length, ◌+◌, ◌*◌, ◌<◌};
ghost use Rattle.part_format.specs.Start.{start_refusal, start_bytes};
ghost use Rattle.part_format.specs.Speak.{speak_answer, speak_output};
ghost use Rattle.part_format.specs.Close.{close_refusal, close_state};
ghost use Rattle.answers.specs.Settle.{settling};
ghost use Rattle.answers.specs.Reason.{reason};
ghost use Rattle.answers.specs.Code.{placed_code, refusal_code, RunCall, ReasonsCall, number_code};
ghost use Rattle.pricing_format.specs.QuoteCall.{QuoteCall, PriceCall};
ghost use Rattle.refusals.specs.Number.{number_of};

use refusals::{Refusal, Refused};

// From here on an answer of a call that takes a ticket is a refusal.
const REFUSALS_FROM: u64 = 65536;

// From here on it names a place.
const PLACES_FROM: u64 = 4294967296;

// A refusal as its number, which is a byte.
fn number(refusal: Refusal) -> u64
    ensures value { result ≡ number_of refusal }
    ensures byte { result < 256 }
{
    u64::from(u8::from(refusal))
}

// A refusal and its line as one number, with the place of the refused ticket among those of the call (0 where there is one alone).
fn refusal_code(place: u8, refused: Refused) -> u64
    ensures { result ≡ placed_code place (number_of refused.refusal) refused.line }
{
    PLACES_FROM * u64::from(place)
        + REFUSALS_FROM * number(refused.refusal)
        + u64::from(refused.line)
}

// A refusal and its line as one number, of a call that takes one ticket.
fn own_code(refused: Refused) -> u64
    ensures { result ≡ refusal_code (number_of refused.refusal) refused.line }
{
    refusal_code(0, refused)
}

// Runs a ticket: the bytes of its result, or 65536 times the refusal plus its line.
#[unsafe(no_mangle)]
pub extern "C" fn uc_run(ticket: &[u8], output: &mut [u8]) -> u64
    ensures { RunCall ticket.now output.old output.new result }
{
    match running::run_ticket(ticket, output) {
        Ok(size) => size as u64,
        Err(refused) => own_code(refused),
    }
}

// Names the settling round of a ticket, the lowest that qualifies; or 65536 times the refusal plus its line.
#[unsafe(no_mangle)]
pub extern "C" fn uc_settle(ticket: &[u8]) -> u64
    ensures { result ≡ number_code (settling ticket.now) }
{
    match running::settle(ticket) {
        Ok(round) => u64::from(round),
        Err(refused) => own_code(refused),
    }
}

// Gives the reason of a process in a round of a ticket's run, 1 to 7; or 65536 times the refusal plus its line.
#[unsafe(no_mangle)]
pub extern "C" fn uc_reason(ticket: &[u8], process: u64, round: u64) -> u64
    ensures { result ≡ number_code (reason ticket.now process round) }
{
    match reasons::reason_of(ticket, process, round) {
        Ok(reason) => u64::from(u8::from(reason)),
        Err(refused) => own_code(refused),
    }
}

// Writes the reasons of all processes in all rounds of a ticket's run: how many there are, or 65536 times the refusal plus its line.
#[unsafe(no_mangle)]
pub extern "C" fn uc_reasons(ticket: &[u8], reasons: &mut [u8]) -> u64
    ensures { ReasonsCall ticket.now reasons.old reasons.new result }
{
    match reasons::all_reasons(ticket, reasons) {
        Ok(count) => count as u64,
        Err(unexplained) => own_code(unexplained),
    }
}

// Quotes tender lines for a process of a ticket's run: 0, and the pence in their place; or 65536 times the refusal plus its line.
#[unsafe(no_mangle)]
pub extern "C" fn uc_quote(ticket: &[u8], costs: &[u64], process: u64, quote: &mut u64) -> u64
    ensures { QuoteCall ticket.now costs.now process quote.old quote.new result }
{
    match quotes::quote_of(ticket, costs, process) {
        Ok(pence) => {
            *quote = pence;
            0
        }
        Err(unquoted) => own_code(unquoted),
    }
}

// Quotes tender lines for a process part by its own state: 0, and the pence in their place; or refusal 10, 14, 15 or 16.
#[unsafe(no_mangle)]
pub extern "C" fn uc_price(state: &[u8], costs: &[u64], quote: &mut u64) -> u64
    ensures { PriceCall state.now costs.now quote.old quote.new result }
{
    match part_price::quote_own(state, costs) {
        Ok(price) => {
            *quote = price;
            0
        }
        Err(refused) => number(refused.refusal),
    }
}

// Starts a process part: 0, or refusal 10.
#[unsafe(no_mangle)]
pub extern "C" fn uc_start(process: u64, n: u64, t: u64, value: u32, state: &mut [u8]) -> u64
    ensures value { result ≡ start_refusal process n t state.old }
    ensures state_after { state.new ≡ start_bytes process n t value state.old }
{
    part::start(process, n, t, value, state)
}

// Has a process part speak: 0 or 8 bytes yielded, or refusal 9, 10 or 11.
#[unsafe(no_mangle)]
pub extern "C" fn uc_speak(state: &[u8], output: &mut [u8]) -> u64
    ensures value { result ≡ speak_answer state.now (length output.old) }
    ensures output_after { output.new ≡ speak_output state.now output.old }
{
    part::speak(state, output)
}

// Has a process part close its round on what was heard: 0, or refusal 10, 11 or 12.
#[unsafe(no_mangle)]
pub extern "C" fn uc_close(state: &mut [u8], heard: &[u8]) -> u64
    ensures value { result ≡ close_refusal state.old heard.now }
    ensures state_after { state.new ≡ close_state state.old heard.now }
{
    part::close(state, heard)
}
