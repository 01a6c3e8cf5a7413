// Decimal numbers: read from a word, and put into a lent buffer.
#![tactic(auto)]

ghost use Rattle.std.specs.Prelude.{◌≡◌, ◌++◌, ◌+◌, ◌≤◌, length, unwrap_or};
ghost use Rattle.paper.specs.Decimal.{most32, number_of, digits_of, decimal};
ghost use Rattle.page.specs.Page.{shown, with_text};

use page::Page;

// The number of a word: none where it "is no decimal number, or too large for u32".
#[tactic(auto, using(crate::proofs::Words::read_none, crate::proofs::Words::read_other, crate::proofs::Words::read_too_large, crate::proofs::Words::read_more, crate::proofs::Words::read_all))]
fn parse(word: &[u8]) -> Option<u32>
    ensures { unwrap_or result most32 ≡ number_of word.now }
{
    if word.is_empty() {
        return None;
    }
    let mut value: u32 = 0;
    for &character in word {
        if !character.is_ascii_digit() {
            return None;
        }
        value = value
            .checked_mul(10)?
            .checked_add((character - b'0') as u32)?;
    }
    Some(value)
}

// "A word that is no decimal number, or too large for u32" stands for the most that u32 holds, which is outside every range.
pub fn number_of(word: &[u8]) -> u32
    ensures { result ≡ number_of word.now }
{
    parse(word).unwrap_or(u32::MAX)
}

// How many digits a number has.
fn digits_of(number: usize) -> usize
    ensures { result ≡ digits_of number number }
{
    number.max(1).ilog10() as usize + 1
}

// Without leading zeros.
#[tactic(auto, using(crate::proofs::Digits::length_decimal), unfolding(paper::specs::Decimal::decimal))]
pub fn put_decimal(page: &mut Page<'_>, number: usize)
    requires { length (decimal number) ≤ (shown page.old).room }
    ensures { shown page.new ≡ with_text (decimal number) (shown page.old) }
{
    page.put_digits(digits_of(number), number);
}

// A text, and a number behind it.
pub fn put_behind(page: &mut Page<'_>, told: &[u8], number: usize)
    requires { length told.now + length (decimal number) ≤ (shown page.old).room }
    ensures { shown page.new ≡ with_text (told.now ++ decimal number) (shown page.old) }
{
    page.put_text(told);
    put_decimal(page, number);
}
