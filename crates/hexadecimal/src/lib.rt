// Hexadecimal: lines that come in pieces of any length, and bytes as two capitals each.
#![tactic(auto)]

ghost use Rattle.std.specs.Prelude.{◌≡◌, [], ◌∷◌, ◌≢◌, ◌+◌, ◌*◌, ◌<◌, ◌≤◌, length};
ghost use Rattle.paper.specs.Frames as paper;
ghost use Rattle.hexadecimal.specs.LineSoFar.{value_or_16, digit_table, most_bytes, Fits, Gathers};
ghost use Rattle.hexadecimal.specs.Steps.{counted, Keeps, Paired, Follows};
ghost use Rattle.page.specs.Page.{shown, with_text};

use page::Page;

// "at most 34 bytes"
pub const MOST: usize = 34;

// Two digits a byte.
const MOST_DIGITS: usize = 68;

// Stands for the count of digits of a line that is no frame, whatever follows.
const NO_FRAME: usize = 69;

const NEWLINE: u8 = 10;

// What is known of a line so far, beside the bytes of its frame: how many digits it has, 69 where it is no frame, and its last digit.
#[derive(Clone, Copy)]
pub struct LineSoFar {
    pub digits: usize,
    pub last: u8,
}

// Where reading stopped in a piece, the line there, and whether its newline was read.
#[derive(Clone, Copy)]
pub struct Cut {
    pub at: usize,
    pub line: LineSoFar,
    pub ended: bool,
}

// The value of each character as a digit of either letter case, 16 characters a row; hex 10 for one that is no digit.
const DIGITS: [u8; 256] = *b"\
    \x10\x10\x10\x10\x10\x10\x10\x10\x10\x10\x10\x10\x10\x10\x10\x10\
    \x10\x10\x10\x10\x10\x10\x10\x10\x10\x10\x10\x10\x10\x10\x10\x10\
    \x10\x10\x10\x10\x10\x10\x10\x10\x10\x10\x10\x10\x10\x10\x10\x10\
    \x00\x01\x02\x03\x04\x05\x06\x07\x08\x09\x10\x10\x10\x10\x10\x10\
    \x10\x0A\x0B\x0C\x0D\x0E\x0F\x10\x10\x10\x10\x10\x10\x10\x10\x10\
    \x10\x10\x10\x10\x10\x10\x10\x10\x10\x10\x10\x10\x10\x10\x10\x10\
    \x10\x0a\x0b\x0c\x0d\x0e\x0f\x10\x10\x10\x10\x10\x10\x10\x10\x10\
    \x10\x10\x10\x10\x10\x10\x10\x10\x10\x10\x10\x10\x10\x10\x10\x10\
    \x10\x10\x10\x10\x10\x10\x10\x10\x10\x10\x10\x10\x10\x10\x10\x10\
    \x10\x10\x10\x10\x10\x10\x10\x10\x10\x10\x10\x10\x10\x10\x10\x10\
    \x10\x10\x10\x10\x10\x10\x10\x10\x10\x10\x10\x10\x10\x10\x10\x10\
    \x10\x10\x10\x10\x10\x10\x10\x10\x10\x10\x10\x10\x10\x10\x10\x10\
    \x10\x10\x10\x10\x10\x10\x10\x10\x10\x10\x10\x10\x10\x10\x10\x10\
    \x10\x10\x10\x10\x10\x10\x10\x10\x10\x10\x10\x10\x10\x10\x10\x10\
    \x10\x10\x10\x10\x10\x10\x10\x10\x10\x10\x10\x10\x10\x10\x10\x10\
    \x10\x10\x10\x10\x10\x10\x10\x10\x10\x10\x10\x10\x10\x10\x10\x10";

// The table as a value: whoever reads much makes it once and lends it.
#[tactic(auto, unfolding(crate::specs::LineSoFar::digit_table, paper::specs::Frames::digit))]
pub fn digits() -> [u8; 256]
    ensures { result ≡ digit_table }
{
    DIGITS
}

// The value of a character, as the table has it.
#[tactic(auto, using(crate::proofs::Bytes::table_long, crate::proofs::Bytes::entry))]
fn value(digits: &[u8], character: u8) -> u8
    requires { digits.now ≡ digit_table }
    ensures { result ≡ value_or_16 (paper.digit character) }
{
    digits[character as usize]
}

// One character more of a line: a digit joins its frame, and any other character, or one digit too many, leaves no frame. A digit at an even
// place stands in the frame's byte only until the next one comes.
fn keep(digits: &[u8], character: u8, line: LineSoFar, frame: &mut [u8]) -> LineSoFar
    requires digits_value { digits.now ≡ digit_table }
    requires fits { Fits line frame.old × (character ≢ paper.newline) }
    ensures { Keeps character line frame.old result frame.new }
{
    let count = line.digits;
    let last = line.last;
    let value = value(digits, character);
    if 15 < value {
        return LineSoFar {
            digits: NO_FRAME,
            last,
        };
    }
    if MOST_DIGITS <= count {
        return LineSoFar {
            digits: NO_FRAME,
            last,
        };
    }
    frame[count / 2] = last * 16 + value;
    LineSoFar {
        digits: count + 1,
        last: value,
    }
}

// How many pairs so many characters have, 34 at most.
fn pairs_in(characters: usize) -> usize
    ensures { (result ≤ most_bytes) × (2 * result ≤ characters) }
{
    if 2 * MOST <= characters {
        return MOST;
    }
    characters / 2
}

// The pairs of digits at a line's start, each a byte of its frame; answers how many there are.
fn pairs(digits: &[u8], piece: &[u8], from: usize, frame: &mut [u8]) -> usize
    requires digits_value { digits.now ≡ digit_table }
    requires from_in_bounds { (from ≤ length piece.now) × Fits (counted 0 0) frame.old }
    ensures { Paired piece.now from frame.old result frame.new }
{
    let most = pairs_in(piece.len() - from);
    for count in 0..most {
        let at = from + 2 * count;
        let high = value(digits, piece[at]);
        let low = value(digits, piece[at + 1]);
        if 15 < high | low {
            return count;
        }
        frame[count] = high * 16 + low;
    }
    most
}

// The characters from a place on, one by one, up to a newline or the piece's end.
fn follow(digits: &[u8], piece: &[u8], from: usize, line: LineSoFar, frame: &mut [u8]) -> Cut
    requires digits_value { digits.now ≡ digit_table }
    requires from_in_bounds { (from ≤ length piece.now) × Fits line frame.old }
    ensures { Follows piece.now from line frame.old result frame.new }
{
    let mut held = line;
    for at in from..piece.len() {
        let character = piece[at];
        if character == NEWLINE {
            return Cut {
                at: at + 1,
                line: held,
                ended: true,
            };
        }
        held = keep(digits, character, held, frame);
    }
    Cut {
        at: piece.len(),
        line: held,
        ended: false,
    }
}

// Reads on in a piece up to a newline or the piece's end: at a line's start by pairs, as far as they go.
pub fn gather(digits: &[u8], piece: &[u8], from: usize, line: LineSoFar, frame: &mut [u8]) -> Cut
    requires digits_value { digits.now ≡ digit_table }
    requires from_in_bounds { (from < length piece.now) × Fits line frame.old }
    ensures { Gathers piece.now from line frame.old result frame.new }
{
    if line.digits == 0 {
        let count = pairs(digits, piece, from, frame);
        let begun = LineSoFar {
            digits: 2 * count,
            last: line.last,
        };
        return follow(digits, piece, from + 2 * count, begun, frame);
    }
    follow(digits, piece, from, line, frame)
}

// The digits as capitals.
const CAPITALS: [u8; 16] = *b"0123456789ABCDEF";

// A digit as a capital.
#[tactic(auto, using(crate::proofs::Bytes::capital_at))]
fn capital(d: u8) -> u8
    requires { d < 16 }
    ensures { result ≡ paper.capital d }
{
    CAPITALS[d as usize]
}

// A byte as two capitals.
pub fn capitals(byte: u8) -> [u8; 2]
    ensures { result ≡ paper.hexadecimal (byte ∷ []) }
{
    [capital(byte / 16), capital(byte % 16)]
}

pub fn put_byte(page: &mut Page<'_>, byte: u8)
    requires { 2 ≤ (shown page.old).room }
    ensures { shown page.new ≡ with_text (paper.hexadecimal (byte ∷ [])) (shown page.old) }
{
    page.put_text(&capitals(byte));
}

// Bytes as two capitals each.
pub fn put_bytes(page: &mut Page<'_>, bytes: &[u8])
    requires { 2 * length bytes.now ≤ (shown page.old).room }
    ensures { shown page.new ≡ with_text (paper.hexadecimal bytes.now) (shown page.old) }
{
    for byte in bytes {
        put_byte(page, *byte);
    }
}
