// 01, "One arrival", step by step, by value.
#![tactic(auto)]

ghost use Rattle.std.specs.Prelude.{◌≡◌, ◌≢◌, true, not, ◌&&◌, ◌||◌, eqb};
ghost use Rattle.paper.specs.Arrival as steps;

use paper::{Flags, Item, Outcome, Settings, Why};

// "CR 0D, NL 0A"
pub const CR: u8 = 0x0D;

pub const NL: u8 = 0x0A;

// 02 e: "Work the eight line-ending rows out from the three bits of the value (4 drops CR, 2 turns CR into NL, 1 turns NL into CR)."
pub const DROPS_CR: u8 = 4;

pub const CR_INTO_NL: u8 = 2;

pub const NL_INTO_CR: u8 = 1;

// "Storing a good FF in mark mode makes a doubled item; any other good byte makes a plain item."
#[tactic(auto, unfolding(paper::specs::Arrival::good_item))]
fn good_item(s: Settings, b: u8) -> Item
    ensures { result ≡ steps.good_item s b }
{
    if s.damaged == 4 && b == 0xFF {
        Item::Doubled
    } else {
        Item::Plain(b)
    }
}

// The ruling, the literal mark after it, and whether the transmitter then runs.
fn giving(ruling: Result<Item, Why>, literal: bool, running: bool) -> Outcome
    ensures { result ≡ steps.gives ruling literal running }
{
    Outcome {
        ruling,
        flags: Flags { literal, running },
    }
}

// "1. Break. Ignored: nothing changes. Kept: store damaged 00 in mark mode, else plain 00; clear the literal mark."
#[tactic(auto, unfolding(paper::specs::Arrival::step1))]
fn step1(s: Settings, f: Flags) -> Outcome
    ensures { result ≡ steps.step1 s f }
{
    if s.breaks == 0 {
        return Outcome {
            ruling: Err(Why::BreakIgnored),
            flags: f,
        };
    }
    let kept = if s.damaged == 4 {
        Item::Damaged(0x00)
    } else {
        Item::Plain(0x00)
    };
    giving(Ok(kept), false, f.running)
}

// "Pass: go on as good.": whether an arrival that is no break takes steps 3 to 7, as it is good, or damaged and passed.
fn goes_on_as_good(s: Settings, kind: u8) -> bool
    ensures { result ≡ (eqb kind 0 || eqb s.damaged 1) }
{
    kind == 0 || s.damaged == 1
}

// "2. Parity or framing error. ... Discard: nothing changes. Null: store plain 00. Mark: store damaged b, unstripped. The last two clear the
// literal mark, and match no special character." What is passed has gone on as good.
#[tactic(auto, unfolding(paper::specs::Arrival::step2))]
fn step2(s: Settings, f: Flags, b: u8) -> Outcome
    requires { s.damaged ≢ 1 }
    ensures { result ≡ steps.step2 s f b (steps.good s f b) }
{
    match s.damaged {
        2 => Outcome {
            ruling: Err(Why::DamagedDiscarded),
            flags: f,
        },
        3 => giving(Ok(Item::Plain(0x00)), false, f.running),
        _ => giving(Ok(Item::Damaged(b)), false, f.running),
    }
}

// "3. Good. If strip is on, b becomes b mod 128."
#[tactic(auto, unfolding(paper::specs::Arrival::stripped))]
fn strip(s: Settings, b: u8) -> u8
    ensures { result ≡ steps.stripped s b }
{
    if s.strip == 1 { b % 128 } else { b }
}

// "From here on, with implied XON the transmitter is set running, unless step 6 recognises XOFF."
#[tactic(auto, unfolding(paper::specs::Arrival::woken))]
fn wake(s: Settings, f: Flags) -> bool
    ensures { result ≡ steps.woken s f }
{
    s.implied == 1 || f.running
}

// "4. Literal mark set: clear it, store b, stop."
#[tactic(auto, unfolding(paper::specs::Arrival::step4))]
fn step4(s: Settings, f: Flags, running: bool, b: u8) -> Outcome
    ensures { result ≡ steps.step4 s f running b (steps.step5 s running b (steps.step6 s b (steps.step7 s running b))) }
{
    if f.literal {
        return giving(Ok(good_item(s, b)), false, running);
    }
    step5(s, running, b)
}

// "Literal-next on and b is that character"
fn is_literal_next(s: Settings, b: u8) -> bool
    ensures { result ≡ (eqb s.literal 1 && eqb b s.quote) }
{
    s.literal == 1 && b == s.quote
}

// "5. Literal-next on and b is that character: set the mark, store b, stop."
#[tactic(auto, unfolding(paper::specs::Arrival::step5))]
fn step5(s: Settings, running: bool, b: u8) -> Outcome
    ensures { result ≡ steps.step5 s running b (steps.step6 s b (steps.step7 s running b)) }
{
    if is_literal_next(s, b) {
        return giving(Ok(good_item(s, b)), true, running);
    }
    step6(s, running, b)
}

// "Field 5 not 0 and b is XON or XOFF"
fn is_flow_character(s: Settings, b: u8) -> bool
    ensures { result ≡ (not (eqb s.flow 0) && (eqb b s.xon || eqb b s.xoff)) }
{
    s.flow != 0 && (b == s.xon || b == s.xoff)
}

// "store b for value 1, store nothing for value 2"
#[tactic(auto, unfolding(paper::specs::Arrival::flow_ruling))]
fn flow_ruling(s: Settings, b: u8) -> Result<Item, Why>
    ensures { result ≡ steps.flow_ruling s b }
{
    if s.flow == 1 {
        Ok(good_item(s, b))
    } else {
        Err(Why::FlowSwallowed)
    }
}

// "6. Field 5 not 0 and b is XON or XOFF: set running or stopped; store b for value 1, store nothing for value 2; stop."
#[tactic(auto, unfolding(paper::specs::Arrival::step6))]
fn step6(s: Settings, running: bool, b: u8) -> Outcome
    ensures { result ≡ steps.step6 s b (steps.step7 s running b) }
{
    if is_flow_character(s, b) {
        return giving(flow_ruling(s, b), false, b == s.xon);
    }
    step7(s, running, b)
}

// What comes out of a byte by the row of a value of field 4: any byte but CR and NL as it is. A value above 7 has no row, and nothing comes out of
// CR and NL.
#[tactic(auto, using(crate::proofs::Rows::cr_by_bits, crate::proofs::Rows::nl_by_bits, crate::proofs::Rows::no_cr, crate::proofs::Rows::no_nl, crate::proofs::Rows::as_it_is))]
pub fn row_gives(value: u8, b: u8) -> Option<u8>
    ensures { result ≡ steps.ending value b }
{
    match b {
        CR | NL if value > 7 => None,
        CR if value & DROPS_CR != 0 => None,
        CR if value & CR_INTO_NL != 0 => Some(NL),
        NL if value & NL_INTO_CR != 0 => Some(CR),
        _ => Some(b),
    }
}

// "store what comes out"
fn line_ending(s: Settings, b: u8) -> Result<Item, Why>
    ensures { result ≡ steps.ending_ruling s (steps.ending s.endings b) }
{
    match row_gives(s.endings, b) {
        Some(out) => Ok(good_item(s, out)),
        None => Err(Why::EndingDiscarded),
    }
}

// "7. Line endings (CR 0D, NL 0A), one lookup and no second one; store what comes out."
#[tactic(auto, unfolding(paper::specs::Arrival::step7))]
fn step7(s: Settings, running: bool, b: u8) -> Outcome
    ensures { result ≡ steps.step7 s running b }
{
    giving(line_ending(s, b), false, running)
}

// Steps 3 to 7.
#[tactic(auto, unfolding(paper::specs::Arrival::good))]
fn good(s: Settings, f: Flags, b: u8) -> Outcome
    ensures { result ≡ steps.good s f b }
{
    let stripped = strip(s, b);
    let running = wake(s, f);
    step4(s, f, running, stripped)
}

// "Kinds: 0 good, 1 parity error, 2 framing error, 3 break (its byte is disregarded)."
#[tactic(auto, unfolding(paper::specs::Arrival::arrival, paper::specs::Arrival::step2))]
pub fn arrival(s: Settings, f: Flags, kind: u8, b: u8) -> Outcome
    ensures { result ≡ steps.arrival s f kind b }
{
    if kind == 3 {
        step1(s, f)
    } else if goes_on_as_good(s, kind) {
        good(s, f, b)
    } else {
        step2(s, f, b)
    }
}
