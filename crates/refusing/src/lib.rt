// A refusal as words for the fitters, put into a lent buffer.
#![tactic(auto)]

ghost use Rattle.std.specs.Prelude.{◌≡◌, ◌≤◌, length};
ghost use Rattle.paper.specs.RateLines.{refused_words};
ghost use Rattle.page.specs.Page.{shown, with_text};
ghost use Rattle.refusing.specs.Words.{longest_refusal};

use decimal::put_behind;
use page::Page;
use paper::Refusal;

// `refused` and the refusal's number: "5 is followed by its field", 8 by "the place of the offending FF".
#[tactic(auto, using(decimal::proofs::Digits::decimal_of_8, decimal::proofs::Digits::decimal_of_64), unfolding(paper::specs::RateLines::refused_words))]
pub fn put_refusal(page: &mut Page<'_>, refusal: Refusal)
    requires { longest_refusal ≤ (shown page.old).room }
    ensures text { shown page.new ≡ with_text (refused_words refusal) (shown page.old) }
    ensures short { length (refused_words refusal) ≤ longest_refusal }
{
    let number = printing::refusal_number(refusal);
    put_behind(page, b"refused ", number as usize);
    match refusal {
        Refusal::BadField(field) => put_behind(page, b" ", field as usize),
        Refusal::BrokenStream(place) => put_behind(page, b" ", place),
        _ => {}
    }
}
