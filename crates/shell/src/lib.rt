// The frame program's dealings with the world: reads standard input to its end, serves each piece, and writes the answers before it reads on. What it
// serves and writes is proved in `serving`; no contract can say what is read or written, so these functions are kept thin.
#![tactic(auto)]

ghost use Rattle.std.specs.Prelude.{◌≡◌, ℕ, ◌≤◌, length, take, IfSome};
ghost use Rattle.page.specs.Page.{shown};
ghost use Rattle.card.specs.Held.{Sound};
ghost use Rattle.hexadecimal.specs.LineSoFar.{Fits};
ghost use Rattle.printing.specs.Printed.{longest};
ghost use Rattle.serving.specs.Program.{PieceServed, missing};

use card::Card;
use hexadecimal::LineSoFar;
use page::Page;
use serving::Spot;
use standard::{read_piece, write_text};
use std::io::Read;

// How many bytes are read at once, and how many of answers are written.
const PIECE: usize = 65536;

// What is carried from piece to piece.
#[derive(Clone, Copy)]
struct Carried {
    card: Card,
    line: LineSoFar,
}

// Serves a piece to its end, and writes out what is answered whenever there is no room for more, and at the end. None where the output was closed.
fn answer(
    rt: &(impl Print + Eprint),
    before: Carried,
    piece: &[u8],
    frame: &mut [u8],
    page: &mut Page<'_>,
) -> Option<Carried>
    requires { Sound before.card × (Fits before.line frame.old × (longest ≤ (shown page.old).capacity)) }
    ensures same_page { (shown page.new).capacity ≡ (shown page.old).capacity }
    ensures sound { IfSome result (λ after. Sound after.card × Fits after.line frame.new) }
    ensures piece_served { IfSome result (λ after. PieceServed piece.now
        (record { card = before.card; line = before.line; frame = frame.old })
        (record { card = after.card; line = after.line; frame = frame.new })) }
{
    let start = before.card;
    let mut card = start;
    let held = before.line;
    let mut line = held;
    let mut at: usize = 0;
    while at < piece.len() {
        page.clear();
        let from = Spot { at, line };
        let served = serving::serve(card, piece, from, frame, page);
        let next = served.card;
        card = next;
        let spot = served.spot;
        let ahead = spot.line;
        line = ahead;
        at = spot.at;
        if !write_text(rt, page.text()) {
            return None;
        }
    }
    Some(Carried { card, line })
}

// "A last line without its newline counts": the newline that is missing where the input ends within a line; answers how many bytes that makes.
#[tactic(auto, unfolding(serving::specs::Program::missing))]
fn complete(line: LineSoFar, piece: &mut [u8]) -> usize
    requires { 1 ≤ length piece.old }
    ensures { (result ≤ length piece.new) × (take result piece.new ≡ missing line) }
{
    if line.digits == 0 {
        return 0;
    }
    piece[0] = b'\n';
    1
}

// What stands at the front of the buffer, and how many bytes it is.
enum Piece {
    // a piece of the input
    Read(usize),
    // after the input's end, the newline that it may lack
    Last(usize),
}

// The next piece, or none where the input failed.
fn next_piece<R: Read>(
    rt: &impl Eprint,
    input: &mut R,
    piece: &mut [u8],
    line: LineSoFar,
) -> Option<Piece>
    requires { 1 ≤ length piece.old }
    ensures read { (n : ℕ) → result ≡ Some (Piece.Read n) → (1 ≤ n) × (n ≤ length piece.new) }
    ensures last { (n : ℕ) → result ≡ Some (Piece.Last n) → (n ≤ length piece.new) × (take n piece.new ≡ missing line) }
{
    match read_piece(rt, input, piece)? {
        0 => Some(Piece::Last(complete(line, piece))),
        long => Some(Piece::Read(long)),
    }
}

// "It reads standard input, one frame of hexadecimal a line ..., and prints one line ... for each."
pub fn start(rt: &(impl Input + Print + Eprint)) {
    let mut carried = Carried {
        card: Card::fresh(),
        line: LineSoFar { digits: 0, last: 0 },
    };
    let mut frame = [0u8; hexadecimal::MOST];
    let mut input = rt.reader();
    let mut piece = [0u8; PIECE];
    let mut out = [0u8; PIECE];
    let mut page = Page::on(&mut out);
    for _ in 0..u64::MAX {
        match next_piece(rt, &mut input, &mut piece, carried.line) {
            // a line that may not be complete is not answered
            None => return,
            Some(Piece::Read(n)) => match answer(rt, carried, &piece[..n], &mut frame, &mut page) {
                Some(next) => carried = next,
                None => return,
            },
            Some(Piece::Last(n)) => {
                // whether the output takes it changes nothing more: the program ends
                let _ = answer(rt, carried, &piece[..n], &mut frame, &mut page);
                return;
            }
        }
    }
}
