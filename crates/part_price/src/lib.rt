// The quote of a process part by its own nine bytes (document 02, Paper 9; docs/DECISIONS.md, P9.2). Total on every state and every list of costs.
#![tactic(auto)]

ghost use Rattle.std.specs.Prelude.{◌≡◌};
ghost use Rattle.answers.specs.Reply.{answer_by, reply_of};
ghost use Rattle.pricing_format.specs.OwnQuote.{own_quote};

use part_state::check::state_refusal;
use part_state::layout::{MARK_AT, MARK_DECIDED, VALUE_AT};
use refusals::{Refusal, Refused};

// Quotes tender lines for a process part, by its own nine bytes.
pub fn quote_own(state: &[u8], costs: &[u64]) -> Result<u64, Refused>
    ensures { answer_by (reply_of result) ≡ own_quote state.now costs.now }
{
    if state_refusal(state) == 10 {
        return Err(Refusal::InvalidState.at_line(0));
    }
    let mark = state[MARK_AT];
    let value = part_bytes::number_at(state, VALUE_AT);
    let decided = if mark == MARK_DECIDED {
        Some(value)
    } else {
        None
    };
    quotes::quote_by(decided, costs)
}
