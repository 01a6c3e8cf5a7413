// 01, "Settings, 15 bytes": the test of settings, by value.
#![tactic(auto)]

ghost use Rattle.std.specs.Prelude.{◌≡◌, [], ◌∷◌};
ghost use Rattle.paper.specs.Choice.{outside};
ghost use Rattle.paper.specs.Settings.{settings_of, range, tests, crossed12, crossed15, bad_field, first_bad};
ghost use Rattle.judging.specs.Judged.{fifteen, passed, own_ranges, judged_as};

use paper::{Refusal, Settings};

// The value is not one from lowest to highest.
fn outside(lowest: u8, highest: u8, value: u8) -> bool
    ensures { result ≡ outside lowest highest value }
{
    !(lowest..=highest).contains(&value)
}

// "with field 5 not 0, XON equal to XOFF"
fn crossed_flow(s: Settings) -> bool
    ensures { result ≡ (crossed12 s).bad }
{
    s.flow != 0 && s.xon == s.xoff
}

// "with fields 5 and 7 both on, the literal-next character equal to XON or XOFF"
fn crossed_literal(s: Settings) -> bool
    ensures { result ≡ (crossed15 s).bad }
{
    s.flow != 0 && s.literal != 0 && (s.quote == s.xon || s.quote == s.xoff)
}

// One test: a bad value is refused by its field.
fn test(field: u8, bad: bool) -> Result<(), Refusal>
    ensures { result ≡ passed (first_bad (record { field = field; bad = bad } ∷ [])) }
{
    if bad {
        return Err(Refusal::BadField(field));
    }
    Ok(())
}

// The test of a field's own range.
fn own_range(field: u8, lowest: u8, highest: u8, value: u8) -> Result<(), Refusal>
    ensures { result ≡ passed (first_bad (range field lowest highest value ∷ [])) }
{
    test(field, outside(lowest, highest, value))
}

// "Own ranges are tested first, in field order"
fn own_ranges(s: Settings, most: u8) -> Result<(), Refusal>
    ensures { result ≡ passed (first_bad (own_ranges most s)) }
{
    own_range(1, 1, 4, s.damaged)?;
    own_range(2, 0, 1, s.breaks)?;
    own_range(3, 0, 1, s.strip)?;
    own_range(4, 0, 7, s.endings)?;
    own_range(5, 0, 2, s.flow)?;
    own_range(6, 0, 1, s.implied)?;
    own_range(7, 0, 1, s.literal)?;
    own_range(8, 1, most, s.threshold)?;
    own_range(9, 0, 1, s.hold)?;
    own_range(10, 0, 1, s.expand)
}

// "then these two in order"
fn crossed(s: Settings) -> Result<(), Refusal>
    ensures { result ≡ passed (first_bad (crossed12 s ∷ crossed15 s ∷ [])) }
{
    test(12, crossed_flow(s))?;
    test(15, crossed_literal(s))
}

// "Settings, 15 bytes", in field order; none where they are not 15.
fn settings_of(bytes: &[u8]) -> Option<Settings>
    ensures { result ≡ fifteen bytes.now }
{
    let &[
        damaged,
        breaks,
        strip,
        endings,
        flow,
        implied,
        literal,
        threshold,
        hold,
        expand,
        xon,
        xoff,
        third,
        fourth,
        quote,
    ] = bytes
    else {
        return None;
    };
    Some(Settings {
        damaged,
        breaks,
        strip,
        endings,
        flow,
        implied,
        literal,
        threshold,
        hold,
        expand,
        xon,
        xoff,
        third,
        fourth,
        quote,
    })
}

// "Own ranges are tested first, in field order, then these two in order."
#[tactic(auto, using(crate::proofs::FirstBad::one_then_other))]
fn test_fields(s: Settings, most: u8) -> Result<(), Refusal>
    ensures { result ≡ passed (first_bad (tests most s)) }
{
    own_ranges(s, most)?;
    crossed(s)
}

// "settings not 15 bytes (field 0) or the first bad field"; `most` is the most that a threshold may be.
#[tactic(auto, unfolding(paper::specs::Settings::bad_field))]
pub fn judge(bytes: &[u8], most: u8) -> Result<Settings, Refusal>
    ensures { result ≡ judged_as bytes.now (bad_field most bytes.now) }
{
    let Some(settings) = settings_of(bytes) else {
        return Err(Refusal::BadField(0));
    };
    test_fields(settings, most)?;
    Ok(settings)
}
