// Quotes from the agreed rate set (document 02, Paper 9): by a decided value, and of a process of a ticket's run. Total on every text, every number and every
// list of costs.
#![tactic(auto)]

ghost use Rattle.std.specs.Prelude.{◌≡◌};
ghost use Rattle.answers.specs.Reply.{answer_by, reply_of};
ghost use Rattle.pricing_format.specs.Quoting.{of_lines, quoted_or16, quoting};
ghost use Rattle.quotes.specs.code.ByDecision.{price_by};

use refusals::{Refusal, Refused};

// The quote by a value, if one was decided.
pub fn quote_by(decided: Option<u32>, costs: &[u64]) -> Result<u64, Refused>
    ensures { answer_by (reply_of result) ≡ of_lines costs.now (quoted_or16 (price_by costs.now decided)) }
{
    // A `match`: behind a `?` no must-fail edit could change a refusal alone.
    match pricing_lines::check_lines(costs) {
        Ok(()) => {}
        Err(refusal) => return Err(refusal.at_line(0)),
    }
    let value = decided.ok_or(Refusal::NoQuote)?;
    Ok(pricing_lines::price(value, costs))
}

// Quotes tender lines for a process of a ticket's run.
pub fn quote_of(text: &[u8], costs: &[u64], process: u64) -> Result<u64, Refused>
    ensures { answer_by (reply_of result) ≡ quoting text.now costs.now process }
{
    // A `match`: behind a `?` no must-fail edit could change a refusal's line alone.
    match run_ends::decision_of(text, process) {
        Ok(decided) => quote_by(decided, costs),
        Err(refused) => Err(refused),
    }
}
