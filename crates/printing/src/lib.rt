// "one line of hexadecimal in capitals": numbers as a line, and the line of each sort of answer.
#![tactic(auto)]

ghost use Rattle.std.specs.Prelude.{◌≡◌, [], ◌∷◌, ◌+◌, ◌*◌, ◌<◌, ◌≤◌, nat_abs, length};
ghost use Rattle.paper.specs.Numbers.{fate_number, negative, numbers};
ghost use Rattle.page.specs.Page.{shown, with_text};
ghost use Rattle.printing.specs.Printed.{refusal_number, line_of, longest, SmallRefusal, SmallRead};

use hexadecimal::{capitals, put_bytes};
use page::Page;
use paper::{Answer, Fate, Refusal, Why};

// The longest line: 00, characters, flagged and the bytes of a read, two capitals each, and a newline.
pub const LONGEST: usize = 2 * (3 + paper::LENT) + 1;

const NEWLINE: u8 = 10;

// A line of numbers.
#[tactic(auto, using(hexadecimal::proofs::Laws::length_hexadecimal))]
fn put_numbers(page: &mut Page<'_>, numbers: &[u8])
    requires { 2 * length numbers.now < (shown page.old).room }
    ensures { shown page.new ≡ with_text (line_of numbers.now) (shown page.old) }
{
    put_bytes(page, numbers);
    page.push(NEWLINE);
}

// One number: "00 alone", or a refusal's.
pub fn put_alone(page: &mut Page<'_>, number: u8)
    requires { 3 ≤ (shown page.old).room }
    ensures { shown page.new ≡ with_text (line_of (number ∷ [])) (shown page.old) }
{
    let [high, low] = capitals(number);
    page.put_text(&[high, low, NEWLINE]);
}

// Two numbers: 00 and "fate", "taken", "00" or "the channel picked, FF for none"; or a refusal's and what follows it.
pub fn put_pair(page: &mut Page<'_>, first: u8, second: u8)
    requires { 5 ≤ (shown page.old).room }
    ensures { shown page.new ≡ with_text (line_of (first ∷ second ∷ [])) (shown page.old) }
{
    let [first_high, first_low] = capitals(first);
    let [second_high, second_low] = capitals(second);
    page.put_text(&[first_high, first_low, second_high, second_low, NEWLINE]);
}

// "Refusal numbers"
pub fn refusal_number(refusal: Refusal) -> u8
    ensures { result ≡ refusal_number refusal }
{
    match refusal {
        Refusal::BadChannel => 1,
        Refusal::BadKind => 2,
        Refusal::TooMany => 3,
        Refusal::NoRoom => 4,
        Refusal::BadField(_) => 5,
        Refusal::BadSpecial => 6,
        Refusal::SpecialWaits => 7,
        Refusal::BrokenStream(_) => 8,
        Refusal::ShortOutput => 9,
        Refusal::BadCts => 10,
        Refusal::BadLine => 11,
        Refusal::OutsideRange => 12,
        Refusal::TooFar => 13,
        Refusal::TooManyEntries => 16,
    }
}

// How large a deviation is, whichever its sign: the least number of 64 bits has a size too.
pub fn deviation_size(deviation: i64) -> usize
    ensures { result ≡ nat_abs deviation }
{
    deviation.unsigned_abs() as usize
}

// "1 where it is negative"
pub fn negative_number(deviation: i64) -> u8
    ensures { result ≡ negative deviation }
{
    u8::from(deviation < 0)
}

// A refusal's line: "Answers begin with 00 or the refusal number (5 is followed by its field)", and 8 by "the place of the offending FF".
pub fn put_refused(page: &mut Page<'_>, refusal: Refusal)
    requires { longest ≤ (shown page.old).room × SmallRefusal refusal }
    ensures { shown page.new ≡ with_text (line_of (numbers (Answer.Refused refusal) [])) (shown page.old) }
{
    let number = refusal_number(refusal);
    match refusal {
        Refusal::BadField(field) => put_pair(page, number, field),
        Refusal::BrokenStream(place) => put_pair(page, number, place as u8),
        _ => put_alone(page, number),
    }
}

// "0 stored", "2 lost"; or 1, 3, 4 or 5, by why nothing was stored.
pub fn fate_number(fate: Fate) -> u8
    ensures { result ≡ fate_number fate }
{
    match fate {
        Fate::Stored => 0,
        Fate::Lost => 2,
        Fate::Nothing(why) => match why {
            Why::FlowSwallowed => 1,
            Why::DamagedDiscarded => 3,
            Why::BreakIgnored => 4,
            Why::EndingDiscarded => 5,
        },
    }
}

// "characters, flagged, bytes": of the lent bytes those that were written.
pub fn put_handed(page: &mut Page<'_>, characters: usize, flagged: usize, bytes: usize, lent: &[u8])
    requires { longest ≤ (shown page.old).room × SmallRead characters flagged bytes lent.now }
    ensures { shown page.new ≡ with_text (line_of (numbers (Answer.Handed characters flagged bytes) lent.now)) (shown page.old) }
{
    let counts = [0, characters as u8, flagged as u8];
    put_bytes(page, &counts);
    put_numbers(page, &lent[..bytes])
}

// "01 and the byte sent"
pub fn put_sent(page: &mut Page<'_>, byte: u8)
    requires { longest ≤ (shown page.old).room }
    ensures { shown page.new ≡ with_text (line_of (numbers (Answer.Sent byte) [])) (shown page.old) }
{
    let [high, low] = capitals(byte);
    page.put_text(&[b'0', b'0', b'0', b'1', high, low, NEWLINE]);
}

// "waiting, transmit waiting, stopped, loss high, loss low"
pub fn put_shown(page: &mut Page<'_>, waiting: usize, sending: usize, stopped: bool, losses: u16)
    requires { longest ≤ (shown page.old).room × ((waiting < 256) × (sending < 256)) }
    ensures { shown page.new ≡ with_text (line_of (numbers (Answer.Shown waiting sending stopped losses) [])) (shown page.old) }
{
    let [waiting_high, waiting_low] = capitals(waiting as u8);
    let [sending_high, sending_low] = capitals(sending as u8);
    let [stopped_high, stopped_low] = capitals(u8::from(stopped));
    let [losses_1, losses_2] = capitals((losses / 256) as u8);
    let [losses_3, losses_4] = capitals((losses % 256) as u8);
    page.put_text(&[
        b'0',
        b'0',
        waiting_high,
        waiting_low,
        sending_high,
        sending_low,
        stopped_high,
        stopped_low,
        losses_1,
        losses_2,
        losses_3,
        losses_4,
        NEWLINE,
    ]);
}
