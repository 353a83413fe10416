// Tender lines (document 02, Paper 9): which are priced, and what a rate set makes of them.
#![tactic(auto)]

ghost use Rattle.std.specs.Prelude.{◌≡◌, ◌≤◌};
ghost use Rattle.pricing.specs.Price.{overhead_of, markup_of, with_rate, price_of};
ghost use Rattle.pricing.specs.Quote.{highest_cost, any_above, lines_refusal};
ghost use Rattle.pricing.specs.Largest.{highest_sum};
ghost use Rattle.refusals.specs.Answered.{refusal_in};

use refusals::Refusal;

// The most tender lines, and the highest direct cost in pence.
const MOST_LINES: usize = 200;

const HIGHEST_COST: u64 = 1000000000;

// An amount with so many hundredths of a percent of it added, these rounded to the nearest penny, halves up.
fn with_rate(amount: u64, rate: u16) -> u64
    requires { amount ≤ highest_sum }
    ensures { result ≡ with_rate amount rate }
{
    amount + (amount * u64::from(rate) + 5000) / 10000
}

// A rate set: overhead on direct cost, markup on that sum, in hundredths of a percent.
#[derive(Clone, Copy)]
struct RateSet {
    overhead: u16,
    markup: u16,
}

// The upper two bytes of a value are the overhead, the lower two the markup.
impl From<u32> for RateSet {
    ghost from_gives = { λ value rates. rates ≡ record { overhead = overhead_of value; markup = markup_of value } };

    fn from(value: u32) -> RateSet {
        RateSet {
            overhead: (value / 65536) as u16,
            markup: (value % 65536) as u16,
        }
    }
}

impl RateSet {
    // The price of a tender line: overhead on its direct cost, markup on that sum.
    fn line_price(self, cost: u64) -> u64
        requires { cost ≤ highest_cost }
        ensures { result ≡ with_rate (with_rate cost self.overhead) self.markup }
    {
        let sum = with_rate(cost, self.overhead);
        with_rate(sum, self.markup)
    }
}

// Whether some cost is above a limit.
fn any_above(limit: u64, costs: &[u64]) -> bool
    ensures { result ≡ any_above limit costs.now }
{
    costs.iter().any(|cost| limit < *cost)
}

// The refusal of lines that are not priced.
pub fn check_lines(costs: &[u64]) -> Result<(), Refusal>
    ensures { refusal_in result ≡ lines_refusal costs.now }
{
    if !(1..=MOST_LINES).contains(&costs.len()) {
        return Err(Refusal::WrongLineCount);
    }
    if any_above(HIGHEST_COST, costs) {
        return Err(Refusal::CostTooHigh);
    }
    Ok(())
}

// The price of lines that are not refused.
pub fn price(value: u32, costs: &[u64]) -> u64
    requires { lines_refusal costs.now ≡ 0 }
    ensures { result ≡ price_of value costs.now }
{
    let rates = RateSet::from(value);
    costs.iter().map(|cost| rates.line_price(*cost)).sum()
}
