// 01: "Reading a marked stream".
#![tactic(auto)]

ghost use Rattle.std.specs.Prelude.{◌≡◌, [], map, ◌≤◌, length, MatchOption};
ghost use Rattle.paper.specs.Stream as paper;
ghost use Rattle.stream.specs.Promise.{Promise};
ghost use Rattle.stream.specs.Scan.{scanned, SplitsInto, Stops, character};

use paper::Refusal;

const FF: u8 = 0xFF;

// An item as a reader of the stream knows it.
#[derive(Clone, Copy)]
enum Item {
    Good(u8),
    Damaged(u8),
}

impl Item {
    // "0 good or 1 damaged"
    fn sort(self) -> u8
        ensures { result ≡ paper.sort (character self) }
    {
        match self {
            Item::Good(_) => 0,
            Item::Damaged(_) => 1,
        }
    }

    fn byte(self) -> u8
        ensures { result ≡ paper.byte (character self) }
    {
        match self {
            Item::Good(byte) | Item::Damaged(byte) => byte,
        }
    }
}

// The first item of a stream, and the bytes behind it. "FF FF is good FF; FF 00 x is damaged x; any other byte but FF is a good byte. FF before any
// other byte, or cut off at the end, is broken": there is no item at a broken FF, nor at the end.
fn split_item(stream: &[u8]) -> Option<(Item, &[u8])>
    ensures { MatchOption result (Stops stream.now) (λ x. SplitsInto stream.now x.0 x.1.now) }
{
    match stream {
        [] => None,
        [FF, marked @ ..] => match marked {
            [FF, behind @ ..] => Some((Item::Good(FF), behind)),
            [0, byte, behind @ ..] => Some((Item::Damaged(*byte), behind)),
            _ => None,
        },
        [byte, behind @ ..] => Some((Item::Good(*byte), behind)),
    }
}

// "FF before any other byte, or cut off at the end, is broken; the first such FF is named": its place, where there is one.
#[tactic(auto, using(crate::proofs::Laws::none_broken, crate::proofs::Laws::names, crate::proofs::Laws::passes))]
pub fn first_broken(stream: &[u8]) -> Option<usize>
    ensures { result ≡ scanned stream.now (paper.readout stream.now).rest }
{
    let mut rest = stream;
    while let Some((_, behind)) = split_item(rest) {
        rest = behind;
    }
    if rest.is_empty() {
        return None;
    }
    Some(stream.len() - rest.len())
}

// "The items go as two lists (0 good or 1 damaged; the byte) into the fronts of two lent buffers, and the answer is their number"
#[tactic(auto, using(crate::proofs::Laws::sorts_written, crate::proofs::Laws::bytes_written))]
fn write_items(stream: &[u8], sorts: &mut [u8], bytes: &mut [u8]) -> usize
    requires { (length stream.now ≤ length sorts.old) × (length stream.now ≤ length bytes.old) }
    ensures value { result ≡ length (paper.readout stream.now).characters }
    ensures sorts_after { sorts.new ≡ paper.front (map paper.sort (paper.readout stream.now).characters) sorts.old }
    ensures bytes_after { bytes.new ≡ paper.front (map paper.byte (paper.readout stream.now).characters) bytes.old }
{
    let mut unread = stream;
    let mut count = 0;
    while let Some((item, behind)) = split_item(unread) {
        sorts[count] = item.sort();
        bytes[count] = item.byte();
        unread = behind;
        count += 1;
    }
    count
}

// Reads a marked stream into two lent buffers: its items, or refusal 9 or 8; "9 comes before 8". "A refusal changes nothing."
#[tactic(auto, using(crate::proofs::Laws::promised_short, crate::proofs::Laws::promised_broken, crate::proofs::Laws::promised_items))]
pub fn decode(stream: &[u8], sorts: &mut [u8], bytes: &mut [u8]) -> Result<usize, Refusal>
    ensures { Promise stream.now sorts.old bytes.old
        (record { answer = result; sorts = sorts.new; bytes = bytes.new }) }
{
    if sorts.len().min(bytes.len()) < stream.len() {
        return Err(Refusal::ShortOutput);
    }
    if let Some(place) = first_broken(stream) {
        return Err(Refusal::BrokenStream(place));
    }
    Ok(write_items(stream, sorts, bytes))
}

// "the front of a stream up to its first FF, as that part of the caller's own bytes; it may be empty or all": it starts where the argument does.
pub fn clean_front(stream: &[u8]) -> &[u8]
    ensures { (result.ref_ptr ≡ stream.entry.ref_ptr) × (result.now ≡ paper.clean_front stream.now) }
{
    let n = stream
        .iter()
        .position(|&byte| byte == FF)
        .unwrap_or(stream.len());
    &stream[..n]
}
