// From a line of the input to its call.
#![tactic(auto)]

ghost use Rattle.std.specs.Prelude.{◌≡◌, ◌≤◌, ◌<◌, length};
ghost use Rattle.paper.specs.Settings.{Size};
ghost use Rattle.paper.specs.Frames.{call_of};
ghost use Rattle.hexadecimal.specs.LineSoFar.{digit_table, most_bytes, Fits};
ghost use Rattle.asking.specs.Frame.{Means, on_channel, bytes_in};
ghost use Rattle.asking.specs.Leads.{Leads};

use hexadecimal::LineSoFar;
use paper::{Asked, Refusal};

// What a line asks for.
#[derive(Clone, Copy)]
pub enum Call {
    // on a channel from 0 to 3
    OnChannel(u8, Asked),
    Pick,
}

// A call on a channel, if there is that channel.
#[tactic(auto, unfolding(crate::specs::Frame::on_channel))]
fn on_channel(channel: u8, asked: Asked) -> Result<Call, Refusal>
    ensures { result ≡ on_channel channel asked }
{
    if 3 < channel {
        return Err(Refusal::BadChannel);
    }
    Ok(Call::OnChannel(channel, asked))
}

// THE TABLE OF FRAMES, a row for each: "01 channel kind byte; 02 channel n (lent 36 bytes, place 0); ...", and "an unknown first byte, or a length not
// listed below".
fn find(frame: &[u8]) -> Result<Call, Refusal>
    ensures { (z : Size) → Means z frame.now result (call_of z frame.now) }
{
    let [first, rest @ ..] = frame else {
        return Err(Refusal::BadLine);
    };
    match (first, rest) {
        (0x01, [channel, kind, byte]) => on_channel(*channel, Asked::Arrive(*kind, *byte)),
        (0x02, [channel, count]) => on_channel(*channel, Asked::Read(*count)),
        (0x03, [channel, ..]) => on_channel(*channel, Asked::Load),
        (0x04, [channel]) => on_channel(*channel, Asked::Turn),
        (0x05, [channel, value]) => on_channel(*channel, Asked::SetCts(*value)),
        (0x06, [channel, number]) => on_channel(*channel, Asked::AskSpecial(*number)),
        (0x07, [channel, ..]) => on_channel(*channel, Asked::TakeSettings),
        (0x08, []) => Ok(Call::Pick),
        (0x09, [channel]) => on_channel(*channel, Asked::Reset),
        (0x0A, [channel]) => on_channel(*channel, Asked::State),
        _ => Err(Refusal::BadLine),
    }
}

// The place behind a line or at the piece's end, and the line there; how many bytes the line's frame has; what the line asks for, or why it is refused,
// or none where it has no end in this piece.
#[derive(Clone, Copy)]
pub struct Next {
    pub at: usize,
    pub line: LineSoFar,
    pub long: usize,
    pub found: Option<Result<Call, Refusal>>,
}

// How many bytes a line's frame has: none where there is "an odd count of digits", nor where it is no frame, which counts 69.
#[tactic(auto, unfolding(crate::specs::Frame::bytes_in))]
fn bytes_in(line: LineSoFar) -> usize
    ensures { result ≡ bytes_in line }
{
    if line.digits % 2 == 1 {
        return 0;
    }
    line.digits / 2
}

// Reads on to the end of a line, or of the piece.
pub fn next_line(
    digits: &[u8],
    piece: &[u8],
    from: usize,
    held: LineSoFar,
    frame: &mut [u8],
) -> Next
    requires digits_value { digits.now ≡ digit_table }
    requires from_in_bounds { (from < length piece.now) × Fits held frame.old }
    ensures { Leads piece.now from held frame.old result frame.new }
{
    let cut = hexadecimal::gather(digits, piece, from, held, frame);
    let line = cut.line;
    if cut.ended {
        let long = bytes_in(line);
        return Next {
            at: cut.at,
            line: LineSoFar { digits: 0, last: 0 },
            long,
            found: Some(find(&frame[..long])),
        };
    }
    Next {
        at: cut.at,
        line,
        long: 0,
        found: None,
    }
}
