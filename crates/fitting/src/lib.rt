// 02 c: the lines for the fitters, put into a lent buffer.
#![tactic(auto)]

ghost use Rattle.std.specs.Prelude.{◌≡◌, ◌++◌, map, ◌+◌, ◌*◌, ◌≤◌, length, Ok};
ghost use Rattle.paper.specs.Text.{text};
ghost use Rattle.paper.specs.Decimal.{decimal};
ghost use Rattle.paper.specs.Rate.{choose};
ghost use Rattle.paper.specs.RateLines.{signed, choice_words, rate_line, rate_lines, usual_rates};
ghost use Rattle.page.specs.Page.{shown, with_text};
ghost use Rattle.fitting.specs.Lines.{longest_signed, longest_choice, longest, longest_line};

use decimal::{number_of, put_behind, put_decimal};
use page::Page;
use paper::{Chosen, Refusal};
use refusing::put_refusal;

// What stands behind a rate's word at most: a space, divisor and period of ten digits each, a sign and nineteen digits, a space behind each number but
// the last, and a newline. A refusal is shorter.
pub const LONGEST: usize = 1 + 10 + 1 + 10 + 1 + 20 + 1;

// The rates that are usual on serial lines.
const USUAL: [u32; 20] = [
    50, 75, 110, 150, 300, 600, 1200, 1800, 2400, 3600, 4800, 7200, 9600, 14400, 19200, 28800,
    38400, 57600, 115200, 230400,
];

// `+4693`, `-12` or `0`
fn put_signed(page: &mut Page<'_>, deviation: i64)
    requires { longest_signed ≤ (shown page.old).room }
    ensures { shown page.new ≡ with_text (signed deviation) (shown page.old) }
{
    let size = printing::deviation_size(deviation);
    if size == 0 {
        page.put_text(b"0");
    } else if deviation < 0 {
        put_behind(page, b"-", size);
    } else {
        put_behind(page, b"+", size);
    }
}

// `DIVISOR PERIOD DEVIATION`
#[tactic(auto, using(decimal::proofs::Digits::decimal_of_32), unfolding(paper::specs::RateLines::choice_words))]
fn put_chosen(page: &mut Page<'_>, chosen: Chosen)
    requires { longest_choice ≤ (shown page.old).room }
    ensures text { shown page.new ≡ with_text (choice_words (Ok chosen)) (shown page.old) }
    ensures short { length (choice_words (Ok chosen)) ≤ longest_choice }
{
    let Chosen { pair, deviation } = chosen;
    put_decimal(page, pair.divisor as usize);
    put_behind(page, b" ", pair.period as usize);
    page.push(b' ');
    put_signed(page, deviation);
}

// `DIVISOR PERIOD DEVIATION`; or `refused 12`, `refused 13`.
#[tactic(auto, unfolding(paper::specs::RateLines::choice_words))]
fn put_choice(page: &mut Page<'_>, choosing: Result<Chosen, Refusal>)
    requires { longest_choice ≤ (shown page.old).room }
    ensures text { shown page.new ≡ with_text (choice_words choosing) (shown page.old) }
    ensures short { length (choice_words choosing) ≤ longest_choice }
{
    match choosing {
        Ok(chosen) => put_chosen(page, chosen),
        Err(refusal) => put_refusal(page, refusal),
    }
}

// What stands behind a rate's word: a space, the choice and a newline.
fn put_answer(page: &mut Page<'_>, clock: u32, rate: u32)
    requires { longest ≤ (shown page.old).room }
    ensures text { shown page.new ≡ with_text (text " " ++ choice_words (choose clock rate) ++ text "\n") (shown page.old) }
    ensures short { length (text " " ++ choice_words (choose clock rate) ++ text "\n") ≤ longest }
{
    let choosing = choosing::choose(clock, rate);
    page.put_text(b" ");
    put_choice(page, choosing);
    page.put_text(b"\n");
}

// The line of a rate: its word as it came, and the choice.
#[tactic(auto, unfolding(paper::specs::RateLines::rate_line))]
pub fn put_rate(page: &mut Page<'_>, clock: u32, word: &[u8])
    requires { length word.now + longest ≤ (shown page.old).room }
    ensures { shown page.new ≡ with_text (rate_line clock word.now) (shown page.old) }
{
    page.put_text(word);
    put_answer(page, clock, number_of(word));
}

// The line of a rate that came as a number: its word is the number in decimal.
#[tactic(auto, using(decimal::proofs::Digits::decimal_of_32))]
fn put_number(page: &mut Page<'_>, clock: u32, rate: u32)
    requires { longest_line ≤ (shown page.old).room }
    ensures text { shown page.new ≡ with_text (rate_line clock (decimal rate)) (shown page.old) }
    ensures short { length (rate_line clock (decimal rate)) ≤ longest_line }
{
    put_decimal(page, rate as usize);
    put_answer(page, clock, rate);
}

// The lines of the usual rates.
pub fn put_usual(page: &mut Page<'_>, clock: u32)
    requires { 20 * longest_line ≤ (shown page.old).room }
    ensures { shown page.new ≡ with_text (rate_lines clock (map decimal usual_rates)) (shown page.old) }
{
    for rate in USUAL {
        put_number(page, clock, rate);
    }
}
