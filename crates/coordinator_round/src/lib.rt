// One round of all processes (document 01, 'A round'): the run as it begins goes in by value and comes back as it ends.
#![tactic(auto)]

ghost use Rattle.coordinator_round.specs.code.Round.{RoundAllowed, RoundRun};

use consensus::Fault;
use coordinator_sending::count;
use tables::RunTable;

// Round r, which begins with a process up and undecided: the run as it begins, to the run as it ends, with its message counts. A message counts if its
// addressee began the round up and undecided (document 02, Paper 4).
// The fault is that of the coordinator, and `faulty` is the set of the processes whose crash round is r.
pub fn run_round(r: u8, fault: Fault, faulty: u64, run: RunTable) -> RunTable
    requires { RoundAllowed r fault faulty run }
    ensures { RoundRun r fault faulty run result }
{
    let mut next = run;
    let value = next.values[(r - 1) as usize];
    let sent = coordinator_sending::sending(next.n, r, fault, next.undecided);
    let crashing = next.undecided & faulty;
    let staying = next.undecided ^ crashing;
    let deciding = staying & (sent.coordinator | sent.committed);
    next.rounds = r;
    next.speakers += count::speakers_in(r, next.undecided);
    next.data_sent += u16::from(sets::size(sent.reached & next.undecided));
    next.commits_sent += u16::from(sets::size(sent.committed & next.undecided));
    sets::fill(&mut next.values, staying & sent.reached, value);
    sets::fill(&mut next.ends, deciding, tables::DECIDED);
    sets::fill(&mut next.ends, crashing, tables::CRASHED);
    sets::fill(&mut next.end_rounds, deciding | crashing, r);
    next.undecided = staying ^ deciding;
    next
}
