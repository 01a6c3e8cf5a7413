// The serving of an input that comes in pieces.
#![tactic(auto)]

ghost use Rattle.std.specs.Prelude.{◌≤◌, length};
ghost use Rattle.page.specs.Page.{shown};
ghost use Rattle.card.specs.Held.{Sound};
ghost use Rattle.hexadecimal.specs.LineSoFar.{Fits};
ghost use Rattle.serving.specs.Served.{Serves};

use asking::{Call, next_line};
use calling::{arrive, ask_special, load, pick, read, reset, set_cts, state, take_settings, turn};
use card::Card;
use hexadecimal::LineSoFar;
use page::Page;
use paper::Asked::{Arrive, AskSpecial, Load, Read, Reset, SetCts, State, TakeSettings, Turn};
use printing::put_refused;

// Where serving stands: the place in the piece, and the line there.
#[derive(Clone, Copy)]
pub struct Spot {
    pub at: usize,
    pub line: LineSoFar,
}

// The card after a piece, and where serving stopped.
#[derive(Clone, Copy)]
pub struct Served {
    pub card: Card,
    pub spot: Spot,
}

// Serves a piece from a spot on, until it ends or there is no room for one answer line more. The channels stay where they are: a call is lent one,
// and the channel after it is left there. Each call has an arm of its own; what is found for a channel is for one of the four, so the remainder is
// its number.
pub fn serve(start: Card, piece: &[u8], from: Spot, frame: &mut [u8], page: &mut Page<'_>) -> Served
    requires { Sound start × (Fits from.line frame.old × (from.at ≤ length piece.now)) }
    ensures { Serves start piece.now from frame.old (shown page.old) result frame.new (shown page.new) }
{
    let digits = hexadecimal::digits();
    let mut ports = start.channels;
    let mut place = start.place;
    let mut spot = from;
    while spot.at < piece.len() && page.takes(printing::LONGEST) {
        let next = next_line(&digits, piece, spot.at, spot.line, frame);
        spot.at = next.at;
        let line = next.line;
        spot.line = line;
        let n = next.long;
        match next.found {
            Some(Ok(Call::OnChannel(channel, asked))) => {
                let i = usize::from(channel) % 4;
                match asked {
                    Arrive(kind, byte) => arrive(&mut ports[i], kind, byte, page),
                    Read(count) => read(&mut ports[i], count, page),
                    Load => load(&mut ports[i], &frame[2..n], page),
                    Turn => turn(&mut ports[i], page),
                    SetCts(value) => set_cts(&mut ports[i], value, page),
                    AskSpecial(number) => ask_special(&mut ports[i], number, page),
                    TakeSettings => take_settings(&mut ports[i], &frame[2..n], page),
                    Reset => reset(&mut ports[i], page),
                    State => state(&ports[i], page),
                }
            }
            Some(Ok(Call::Pick)) => place = pick(
                Card {
                    channels: ports,
                    place,
                },
                page,
            ),
            Some(Err(refusal)) => put_refused(page, refusal),
            None => {}
        }
    }
    let card = Card {
        channels: ports,
        place,
    };
    Served { card, spot }
}
