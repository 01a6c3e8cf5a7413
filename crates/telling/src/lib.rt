// An answer as C has it: the paper's number and values.
#![tactic(auto)]

ghost use Rattle.std.specs.Prelude.{[], ◌∷◌, ◌≡◌};
ghost use Rattle.paper.specs.Numbers.{refusal_numbers};
ghost use Rattle.telling.specs.Told.{told, reading_told, listing_told, choosing_told, ending_told, laid};

use paper::{Answer, Chosen, Listed, Refusal};

// What a call tells: 0 or the refusal's number, and the values in the paper's order, with zeros behind them.
#[repr(C)]
#[derive(Clone, Copy)]
pub struct Told {
    pub refusal: usize,
    pub values: [usize; 4],
}

// "5 is followed by its field", 8 by "the place of the offending FF".
fn tell_refusal(refusal: Refusal) -> Told
    ensures { result ≡ laid (refusal_numbers refusal) }
{
    let number = printing::refusal_number(refusal) as usize;
    match refusal {
        Refusal::BadField(field) => Told {
            refusal: number,
            values: [field as usize, 0, 0, 0],
        },
        Refusal::BrokenStream(place) => Told {
            refusal: number,
            values: [place, 0, 0, 0],
        },
        _ => Told {
            refusal: number,
            values: [0, 0, 0, 0],
        },
    }
}

// A served call: 0, and its values.
fn served(first: usize, second: usize, third: usize, fourth: usize) -> Told
    ensures { result ≡ record { refusal = 0; values = first ∷ second ∷ third ∷ fourth ∷ [] } }
{
    Told {
        refusal: 0,
        values: [first, second, third, fourth],
    }
}

// "fate; or characters, flagged, bytes; or taken; ..."
#[tactic(auto, unfolding(crate::specs::Told::told))]
pub fn tell(answer: Answer) -> Told
    ensures { result ≡ told answer }
{
    match answer {
        Answer::Refused(refusal) => tell_refusal(refusal),
        Answer::Fated(fate) => served(printing::fate_number(fate) as usize, 0, 0, 0),
        Answer::Handed(characters, flagged, bytes) => served(characters, flagged, bytes, 0),
        Answer::Took(taken) => served(taken, 0, 0, 0),
        Answer::Silent => served(0, 0, 0, 0),
        Answer::Sent(byte) => served(1, byte as usize, 0, 0),
        Answer::Done => served(0, 0, 0, 0),
        Answer::Shown(waiting, sending, stopped, losses) => served(
            waiting,
            sending,
            stopped as usize,
            losses as usize,
        ),
        Answer::Picked(channel) => served(channel as usize, 0, 0, 0),
        Answer::NoneReady => served(0xFF, 0, 0, 0),
    }
}

// The number of items, or the refusal.
#[tactic(auto, unfolding(crate::specs::Told::reading_told))]
pub fn tell_reading(reading: Result<usize, Refusal>) -> Told
    ensures { result ≡ reading_told reading }
{
    match reading {
        Ok(count) => served(count, 0, 0, 0),
        Err(refusal) => tell_refusal(refusal),
    }
}

// How many entries a list has and the sum of the accepted litres, or the refusal.
#[tactic(auto, unfolding(crate::specs::Told::listing_told))]
pub fn tell_listing(listing: Result<Listed, Refusal>) -> Told
    ensures { result ≡ listing_told listing }
{
    match listing {
        Ok(listed) => served(listed.entries, listed.litres, 0, 0),
        Err(refusal) => tell_refusal(refusal),
    }
}

// Divisor, period, the deviation's size, and 1 where it is negative; or the refusal.
#[tactic(auto, unfolding(crate::specs::Told::choosing_told))]
pub fn tell_choosing(choosing: Result<Chosen, Refusal>) -> Told
    ensures { result ≡ choosing_told choosing }
{
    match choosing {
        Ok(Chosen { pair, deviation }) => {
            let size = printing::deviation_size(deviation);
            let negative = printing::negative_number(deviation) as usize;
            served(pair.divisor as usize, pair.period as usize, size, negative)
        }
        Err(refusal) => tell_refusal(refusal),
    }
}

// 1 and the single setting, or 0 where none does; or the refusal.
#[tactic(auto, unfolding(crate::specs::Told::ending_told))]
pub fn tell_ending(ending: Result<Option<u8>, Refusal>) -> Told
    ensures { result ≡ ending_told ending }
{
    match ending {
        Ok(Some(one)) => served(1, one as usize, 0, 0),
        Ok(None) => served(0, 0, 0, 0),
        Err(refusal) => tell_refusal(refusal),
    }
}
