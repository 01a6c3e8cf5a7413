// 02 n: the lines of the yield sheet, put into a lent buffer.
#![tactic(auto)]

ghost use Rattle.std.specs.Prelude.{◌≡◌, ◌++◌, ◌+◌, ◌<◌, ◌≤◌, length};
ghost use Rattle.paper.specs.Text.{text};
ghost use Rattle.paper.specs.Decimal.{decimal};
ghost use Rattle.paper.specs.Yield.{words, judgement_words, line_of, litres_line, broken_line, full_line};
ghost use Rattle.page.specs.Page.{shown, with_text};
ghost use Rattle.sheet.specs.Lines.{longest, longest_said, longest_judgement};

use decimal::{put_behind, put_decimal};
use page::Page;
use paper::{Confirmation, Entry, Judgement};

// The longest line: a place of 20 digits, a space, "repeated ", a number of four digits, a space, litres of ten digits, and a newline. The longest
// last line is shorter: "refused 8 ", a place of 20 digits, and a newline.
pub const LONGEST: usize = 20 + 1 + 9 + 4 + 1 + 10 + 1;

// A text, a number and a newline: each of the last lines, and the end of an entry's.
fn put_line(page: &mut Page<'_>, told: &[u8], number: usize)
    requires { length told.now + length (decimal number) < (shown page.old).room }
    ensures { shown page.new ≡ with_text (told.now ++ decimal number ++ text "\n") (shown page.old) }
{
    put_behind(page, told, number);
    page.put_text(b"\n");
}

// `NUMBER LITRES` behind the word for how it is judged, and a newline: the number with its four digits, litres without leading zeros.
#[tactic(auto, using(decimal::proofs::Digits::decimal_of_32), unfolding(paper::specs::Yield::words))]
fn put_said(page: &mut Page<'_>, judged: &[u8], said: Confirmation)
    requires { length judged.now + longest_said ≤ (shown page.old).room }
    ensures { shown page.new ≡ with_text (judged.now ++ (words said ++ text "\n")) (shown page.old) }
{
    page.put_text(judged);
    page.put_digits(4, said.number as usize);
    put_line(page, b" ", said.litres as usize);
}

// `accepted NUMBER LITRES`, `gap NUMBER LITRES`, `repeated NUMBER LITRES` or `aside`, and a newline.
#[tactic(auto, unfolding(paper::specs::Yield::judgement_words))]
fn put_judgement(page: &mut Page<'_>, judgement: Judgement)
    requires { longest_judgement ≤ (shown page.old).room }
    ensures { shown page.new ≡ with_text (judgement_words judgement ++ text "\n") (shown page.old) }
{
    match judgement {
        Judgement::Accepted(said) => put_said(page, b"accepted ", said),
        Judgement::Gap(said) => put_said(page, b"gap ", said),
        Judgement::Repeated(said) => put_said(page, b"repeated ", said),
        Judgement::Aside => page.put_text(b"aside\n"),
    }
}

// An entry's line: its place, and how it is judged.
#[tactic(auto, using(decimal::proofs::Digits::decimal_of_64), unfolding(paper::specs::Yield::line_of))]
pub fn put_entry(page: &mut Page<'_>, entry: Entry)
    requires { longest ≤ (shown page.old).room }
    ensures { shown page.new ≡ with_text (line_of entry) (shown page.old) }
{
    put_decimal(page, entry.place);
    page.put_text(b" ");
    put_judgement(page, entry.judgement);
}

// `litres SUM`
#[tactic(auto, using(decimal::proofs::Digits::decimal_of_64), unfolding(paper::specs::Yield::litres_line))]
pub fn put_litres(page: &mut Page<'_>, sum: usize)
    requires { longest ≤ (shown page.old).room }
    ensures { shown page.new ≡ with_text (litres_line sum) (shown page.old) }
{
    put_line(page, b"litres ", sum);
}

// `refused 8 PLACE`, the place in bytes.
#[tactic(auto, using(decimal::proofs::Digits::decimal_of_64), unfolding(paper::specs::Yield::broken_line))]
pub fn put_broken(page: &mut Page<'_>, place: usize)
    requires { longest ≤ (shown page.old).room }
    ensures { shown page.new ≡ with_text (broken_line place) (shown page.old) }
{
    put_line(page, b"refused 8 ", place);
}

// `full PLACE`, the place among the characters.
#[tactic(auto, using(decimal::proofs::Digits::decimal_of_64), unfolding(paper::specs::Yield::full_line))]
pub fn put_full(page: &mut Page<'_>, place: usize)
    requires { longest ≤ (shown page.old).room }
    ensures { shown page.new ≡ with_text (full_line place) (shown page.old) }
{
    put_line(page, b"full ", place);
}
