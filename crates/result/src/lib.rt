// Writing the lines of a result and of a refusal (document 01, 'The result'; document 02, Paper 2), each straight into the part of the output that follows the
// line before it.
#![tactic(auto)]

ghost use Rattle.std.specs.Prelude.{◌≡◌, ◌++◌, ◌*◌, ◌≤◌, length, take, drop};
ghost use Rattle.tables.specs.code.RunOfTable.{states_in, run_from};
ghost use Rattle.answers.specs.ResultLine.{process_line_size, process_lines, result_lines, result_size, refusal_line, refusal_line_size};

use tables::{RunTable, SentCounts};

// The lengths of the lines: two digits for each byte, and 0A.
const PROCESS_LINE_SIZE: usize = 21;

const LAST_LINE_SIZE: usize = 17;

pub const REFUSAL_LINE_SIZE: usize = 9;

// The length of a result of n processes.
#[tactic(auto, unfolding(answers::specs::ResultLine::result_size))]
pub fn result_size(n: u8) -> usize
    ensures { result ≡ result_size n }
{
    PROCESS_LINE_SIZE * usize::from(n) + LAST_LINE_SIZE
}

// The lines of a run's processes, each in the part of the output that follows the line before.
fn put_process_lines(out: &mut [u8], run: &RunTable, sent: &SentCounts)
    requires { (run.now.n ≤ 64) × (process_line_size * run.now.n ≤ length out.old) }
    ensures { out.new
        ≡ process_lines (take run.now.n sent.now.data_by) (take run.now.n sent.now.commits_by) (states_in run.now)
        ++ drop (process_line_size * run.now.n) out.old }
{
    for p in 1..=run.n {
        let i = usize::from(p - 1);
        let line = result_lines::process_bytes(
            p,
            run.state(p),
            sent.data_by[i],
            sent.commits_by[i],
        );
        hex_lines::put_line(&mut out[PROCESS_LINE_SIZE * i..], &line);
    }
}

// The whole result of a run, f of whose processes crashed: what the run's table says, and what each process sent.
#[tactic(auto, unfolding(answers::specs::ResultLine::result_size))]
pub fn write_result(out: &mut [u8], run: &RunTable, f: u8, sent: &SentCounts)
    requires { (run.now.n ≤ 64) × (result_size run.now.n ≤ length out.old) }
    ensures { out.new
        ≡ result_lines (run_from run.now) (take run.now.n sent.now.data_by) (take run.now.n sent.now.commits_by) f
        ++ drop (result_size run.now.n) out.old }
{
    put_process_lines(out, run, sent);
    let line = result_lines::last_bytes(
        run.rounds,
        f,
        run.speakers,
        run.data_sent,
        run.commits_sent,
    );
    hex_lines::put_line(&mut out[PROCESS_LINE_SIZE * usize::from(run.n)..], &line);
}

// The line of a refusal at the front of the output.
// The number is a u8 in place of a Refusal: the contract of put_refusal is for every number.
#[tactic(auto, unfolding(answers::specs::ResultLine::refusal_line))]
pub fn put_refusal(out: &mut [u8], number: u8, line: u16)
    requires { refusal_line_size ≤ length out.old }
    ensures { out.new ≡ refusal_line number line ++ drop refusal_line_size out.old }
{
    hex_lines::put_line(out, &result_lines::refusal_bytes(number, line));
}
