// 02 c, "Choosing the rate": a divisor and a period for a clock and a wanted rate. Of the 1275 pairs it looks at eleven at most: at the first one,
// and for each divisor at the two periods beside the exact one. Whole numbers only: the greatest product is a distance times a million, below 2 ^ 57.
#![tactic(auto)]

ghost use Rattle.std.specs.Prelude.{◌≡◌, ◌≤◌, ◌*◌, [], ◌∷◌, true, ltb, IfOk, IfErr};
ghost use Rattle.paper.specs.Choice.{outside};
ghost use Rattle.paper.specs.Rate as paper;
ghost use Rattle.rates.specs.Looks.{best};
ghost use Rattle.rates.specs.Rates.{InRange};
ghost use Rattle.choosing.specs.Search.{Held, Measured, Beside, told_of};

use paper::{Chosen, Pair, Refusal};

// The divisors, from the smallest one on.
const DIVISORS: [u32; 5] = [8, 32, 128, 512, 2048];

// A clock and a wanted rate, each inside its range.
#[derive(Clone, Copy)]
struct Wanted {
    clock: u64,
    rate: u64,
    ghost in_range: { InRange clock rate },
}

// A pair that was looked at for them, with its divider and the distance between the clock and rate times divider: each is worked out once.
#[derive(Clone, Copy)]
struct Seen {
    wanted: Wanted,
    pair: Pair,
    divider: u64,
    gap: u64,
    ghost measured: { Measured wanted.clock wanted.rate pair divider gap },
}

// "outside its range"
fn is_outside(least: u32, most: u32, value: u32) -> bool
    ensures { result ≡ outside least most value }
{
    !(least..=most).contains(&value)
}

// "12 clock or rate outside its range": "a clock (1,000,000 to 60,000,000 Hz) and a wanted rate (1 to 230,400)".
#[tactic(auto, unfolding(paper::specs::Rate::out_of_range))]
fn is_out_of_range(clock: u32, rate: u32) -> bool
    ensures { result ≡ paper.out_of_range clock rate }
{
    is_outside(1000000, 60000000, clock) || is_outside(1, 230400, rate)
}

// The period that the exact one, clock over step, stands at or behind, held to 1 to 255.
fn beside(clock: u64, step: u64) -> u32
    requires { 1 ≤ step }
    ensures { Beside clock step result }
{
    (clock / step).clamp(1, 255) as u32
}

impl Wanted {
    // Of any two numbers.
    fn new(clock: u32, rate: u32) -> Result<Wanted, Refusal>
        ensures ok { IfOk result (λ w. (w.clock ≡ clock) × (w.rate ≡ rate)) }
        ensures err { IfErr result (λ r. (r ≡ Refusal.OutsideRange) × (paper.out_of_range clock rate ≡ true)) }
    {
        if is_out_of_range(clock, rate) {
            return Err(Refusal::OutsideRange);
        }
        Ok(Wanted {
            clock: clock as u64,
            rate: rate as u64,
        })
    }

    // A pair as it is looked at.
    #[tactic(auto, unfolding(paper::specs::Rate::gap))]
    fn see(self, divisor: u32, period: u32) -> Seen
        requires held { Held (paper.pair divisor period) }
        ensures { (result.wanted ≡ self) × (result.pair ≡ paper.pair divisor period) }
    {
        let divider = divisor as u64 * period as u64;
        Seen {
            wanted: self,
            pair: Pair { divisor, period },
            divider,
            gap: self.clock.abs_diff(self.rate * divider),
        }
    }

    // "a divisor of 8, 32, 128, 512 or 2048"
    fn nearest(self) -> Seen
        ensures { (result.wanted ≡ self) × (result.pair ≡ best (paper.nearer self.clock self.rate) (paper.pair 8 1) paper.pairs) }
    {
        let mut kept = self.see(8, 1);
        for divisor in DIVISORS {
            kept = kept.look_along(divisor);
        }
        kept
    }
}

impl Seen {
    ghost use Rattle.choosing.specs.Kept.{Kept};

    // "compared as exact fractions"
    fn is_nearer(self, kept: Seen) -> bool
        ensures { result ≡ ltb (self.gap * kept.divider) (kept.gap * self.divider) }
    {
        self.gap * kept.divider < kept.gap * self.divider
    }

    // A look at one pair more: "ties go to" the one before.
    fn look(self, divisor: u32, period: u32) -> Seen
        requires held { Held (paper.pair divisor period) }
        ensures { Kept self (paper.pair divisor period ∷ []) result }
    {
        let seen = self.wanted.see(divisor, period);
        if seen.is_nearer(self) { seen } else { self }
    }

    // All periods of a divisor, in two looks.
    fn look_along(self, divisor: u32) -> Seen
        requires le_divisor { 1 ≤ divisor }
        requires divisor_bound { divisor ≤ 2048 }
        ensures { Kept self (paper.row divisor 1 255) result }
    {
        let period = beside(self.wanted.clock, self.wanted.rate * divisor as u64);
        let kept = self.look(divisor, period);
        if period == 255 {
            return kept;
        }
        kept.look(divisor, period + 1)
    }

    // "more than 25,000 millionths away, before cutting"
    #[tactic(auto, unfolding(paper::specs::Rate::too_far))]
    fn is_too_far(self) -> bool
        ensures { result ≡ paper.too_far self.wanted.clock self.wanted.rate self.pair }
    {
        25000 * (self.wanted.rate * self.divider) < 1000000 * self.gap
    }

    // "the signed deviation in millionths of the wanted rate, cut toward zero": a signed quotient, from the exact difference between clock and rate times
    // divider.
    #[tactic(auto, unfolding(paper::specs::Rate::deviation))]
    fn deviation(self) -> i64
        ensures { result ≡ paper.deviation self.wanted.clock self.wanted.rate self.pair }
    {
        let times = self.wanted.rate * self.divider;
        let difference = self.wanted.clock as i64 - times as i64;
        difference * 1000000 / times as i64
    }

    // The pair that was kept, unless even it is too far.
    #[tactic(auto, unfolding(crate::specs::Search::told_of))]
    fn tell(self) -> Result<Chosen, Refusal>
        ensures { result ≡ told_of self.wanted.clock self.wanted.rate self.pair }
    {
        if self.is_too_far() {
            return Err(Refusal::TooFar);
        }
        Ok(Chosen {
            pair: self.pair,
            deviation: self.deviation(),
        })
    }
}

// "from a clock (1,000,000 to 60,000,000 Hz) and a wanted rate (1 to 230,400)", for any two numbers.
pub fn choose(clock: u32, wanted: u32) -> Result<Chosen, Refusal>
    ensures { result ≡ paper.choose clock wanted }
{
    Wanted::new(clock, wanted)?.nearest().tell()
}
