// 02 h: the single setting of a pair, and the table of all 64, put into a lent buffer.
#![tactic(auto)]

ghost use Rattle.std.specs.Prelude.{◌≡◌, [], ◌∷◌, ◌*◌, ◌≤◌, length};
ghost use Rattle.paper.specs.Text.{each};
ghost use Rattle.paper.specs.TwoBoxes.{eight};
ghost use Rattle.paper.specs.EndingLines.{ending_words, column_of, table_line, ending_text};
ghost use Rattle.page.specs.Page.{shown, with_text};
ghost use Rattle.refusing.specs.Words.{longest_refusal};
ghost use Rattle.tabling.specs.Lines.{longest_pair, longest_column, longest_line, longest_table};

use decimal::{number_of, put_behind, put_decimal};
use page::Page;
use paper::Refusal;

// A pair's line at most: a refusal, which may have a place of twenty digits, and a newline.
pub const LONGEST_PAIR: usize = 8 + 3 + 1 + 20 + 1;

// The table at most: the head line, and eight lines of the first box's number, eight columns of a space and three digits, and a newline.
pub const LONGEST_TABLE: usize = 18 + 8 * (1 + 8 * 4 + 1);

// `0` to `7`, or `none`; or `refused 5 4`.
#[tactic(auto, using(decimal::proofs::Digits::decimal_of_8), unfolding(paper::specs::EndingLines::ending_words))]
fn put_answer(page: &mut Page<'_>, answer: Result<Option<u8>, Refusal>)
    requires { longest_refusal ≤ (shown page.old).room }
    ensures text { shown page.new ≡ with_text (ending_words answer) (shown page.old) }
    ensures short { length (ending_words answer) ≤ longest_refusal }
{
    match answer {
        Ok(Some(one)) => put_decimal(page, one as usize),
        Ok(None) => page.put_text(b"none"),
        Err(refusal) => refusing::put_refusal(page, refusal),
    }
}

// The line of a pair of words.
#[tactic(auto, unfolding(paper::specs::EndingLines::ending_text))]
pub fn put_pair(page: &mut Page<'_>, first: &[u8], second: &[u8])
    requires { longest_pair ≤ (shown page.old).room }
    ensures { shown page.new ≡ with_text (ending_text (first.now ∷ second.now ∷ [])) (shown page.old) }
{
    let answer = joining::one_ending(number_of(first), number_of(second));
    put_answer(page, answer);
    page.put_text(b"\n");
}

// A column of the table: the setting behind a space, or `-`.
#[tactic(auto, using(decimal::proofs::Digits::decimal_of_8, crate::proofs::Lines::column_does, crate::proofs::Lines::column_none))]
fn put_column(page: &mut Page<'_>, first: u32, second: u32)
    requires first_bound { first ≤ 7 }
    requires second_bound { second ≤ 7 }
    requires longest_column_in_bounds { longest_column ≤ (shown page.old).room }
    ensures text { shown page.new ≡ with_text (column_of first second) (shown page.old) }
    ensures short { length (column_of first second) ≤ longest_column }
{
    match joining::one_ending(first, second) {
        Ok(Some(one)) => put_behind(page, b" ", one as usize),
        _ => page.put_text(b" -"),
    }
}

// A column for each second box.
fn put_columns(page: &mut Page<'_>, first: u32)
    requires first_bound { first ≤ 7 }
    requires longest_column_in_bounds { 8 * longest_column ≤ (shown page.old).room }
    ensures text { shown page.new ≡ with_text (each (column_of first) eight) (shown page.old) }
    ensures short { length (each (column_of first) eight) ≤ 8 * longest_column }
{
    for second in 0..8 {
        put_column(page, first, second);
    }
}

// A line of the table: the first box's number, and a column for each second box.
#[tactic(auto, using(crate::proofs::Lines::first_few), unfolding(paper::specs::EndingLines::table_line))]
fn put_line(page: &mut Page<'_>, first: u32)
    requires first_bound { first ≤ 7 }
    requires longest_line_in_bounds { longest_line ≤ (shown page.old).room }
    ensures text { shown page.new ≡ with_text (table_line first) (shown page.old) }
    ensures short { length (table_line first) ≤ longest_line }
{
    put_decimal(page, first as usize);
    put_columns(page, first);
    page.push(b'\n');
}

// A line for each first box.
fn put_lines(page: &mut Page<'_>)
    requires { 8 * longest_line ≤ (shown page.old).room }
    ensures { shown page.new ≡ with_text (each table_line eight) (shown page.old) }
{
    for first in 0..8 {
        put_line(page, first);
    }
}

// The table of 64, below its head line.
pub fn put_table(page: &mut Page<'_>)
    requires { longest_table ≤ (shown page.old).room }
    ensures { shown page.new ≡ with_text (ending_text []) (shown page.old) }
{
    page.put_text(b"  0 1 2 3 4 5 6 7\n");
    put_lines(page);
}
