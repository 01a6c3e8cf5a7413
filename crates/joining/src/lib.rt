// 02 h, "Two boxes in a row": "which single line-ending setting does the work of both". What both boxes make of CR and of NL is worked out by the
// rows of their settings, and the setting's three bits are read off that.
#![tactic(auto)]

ghost use Rattle.std.specs.Prelude.{◌≡◌};
ghost use Rattle.paper.specs.TwoBoxes.{one_ending};
ghost use Rattle.joining.specs.Passing.{passed, Ends, bits_of_cr, bit_of_nl, least_for, setting_of};

use paper::Refusal;
use rules::{CR, CR_INTO_NL, DROPS_CR, NL, NL_INTO_CR, row_gives};

// What comes out of both boxes.
fn both_give(first: u8, second: u8, b: u8) -> Option<u8>
    ensures { result ≡ passed first second b }
{
    row_gives(second, row_gives(first, b)?)
}

// "4 drops CR, 2 turns CR into NL"
fn bits_of_cr(cr: Option<u8>) -> u8
    ensures { result ≡ bits_of_cr cr }
{
    match cr {
        None => DROPS_CR,
        Some(NL) => CR_INTO_NL,
        Some(_) => 0,
    }
}

// "1 turns NL into CR"
fn bit_of_nl(nl: u8) -> u8
    ensures { result ≡ bit_of_nl nl }
{
    if nl == CR {
        return NL_INTO_CR;
    }
    0
}

// The setting with this row: none of the eight drops NL.
#[tactic(auto, using(crate::proofs::Passing::none_with, crate::proofs::Passing::does_with))]
fn setting_with(cr: Option<u8>, nl: Option<u8>) -> Option<u8>
    requires cr_ends { Ends cr }
    requires nl_ends { Ends nl }
    ensures { result ≡ least_for cr nl }
{
    let nl = nl?;
    Some(bits_of_cr(cr) + bit_of_nl(nl))
}

// Line endings are field 4, and have no other value than the eight.
#[tactic(auto, unfolding(crate::specs::Passing::setting_of))]
fn setting(value: u32) -> Result<u8, Refusal>
    ensures { result ≡ setting_of value }
{
    if value > 7 {
        return Err(Refusal::BadField(4));
    }
    Ok(value as u8)
}

// "For every ordered pair", and any two numbers: the least setting that does the work of both, or none; a value above 7 is refused as settings are.
#[tactic(auto, using(crate::proofs::Passing::first_refused, crate::proofs::Passing::second_refused, crate::proofs::Passing::answered, crate::proofs::Passing::both_cr, crate::proofs::Passing::both_nl))]
pub fn one_ending(first: u32, second: u32) -> Result<Option<u8>, Refusal>
    ensures { result ≡ one_ending first second }
{
    let first = setting(first)?;
    let second = setting(second)?;
    let cr = both_give(first, second, CR);
    let nl = both_give(first, second, NL);
    Ok(setting_with(cr, nl))
}
