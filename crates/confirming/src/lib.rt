// 02 n: confirmations, over a marked stream and a lent list.
#![tactic(auto)]

ghost use Rattle.std.specs.Prelude.{◌≡◌, []};
ghost use Rattle.paper.specs.Confirmations.{judgement_number, said, listed_in};
ghost use Rattle.paper.specs.Stream as paper;
ghost use Rattle.confirming.specs.Counted.{counted_in, entries_in, HasPlaces, HasPlace, with_entry};
ghost use Rattle.confirming.specs.Entries.{Begins, Ready, refused, Nexts};
ghost use Rattle.confirming.specs.Promise.{columns, Promise};

use finding::{Search, Stop, StoppedAt};
use paper::{Confirmation, Entry, Judgement, Listed, Refusal};

// A pass over the entries of a stream: where it stands in the stream, and the search behind all before.
#[derive(Clone, Copy)]
struct Entries<'a> {
    stream: &'a [u8],
    at: usize,
    search: Search,
}

impl<'a> Entries<'a> {
    fn of(stream: &'a [u8]) -> Entries<'a>
        ensures { Begins stream.now result }
    {
        Entries {
            stream,
            at: 0,
            search: Search::beginning(),
        }
    }

    // The next entry, if there is one more; or the refusal of a stream that is broken, or whose characters or litres cannot be counted.
    fn next(&mut self) -> Result<Option<Entry>, Refusal>
        requires { Ready self.old }
        ensures { Nexts self.old self.new result }
    {
        let next = self.search.go_on(self.stream, self.at).map_err(refusal)?;
        self.at = next.at;
        self.search = next.search;
        Ok(next.entry)
    }
}

// What a stop of the search is refused with.
fn refusal(stopped: StoppedAt) -> Refusal
    ensures { result ≡ refused stopped.stop }
{
    match stopped.stop {
        Stop::Broken(place) => Refusal::BrokenStream(place),
        Stop::Full(_) => Refusal::TooManyEntries,
    }
}

// How many entries a stream has of which nothing is broken, and the sum of the accepted litres; or that these are more than a list of so many places
// has room for, or than can be counted.
#[tactic(auto, using(crate::proofs::Passes::passing_start, crate::proofs::Passes::ready))]
fn count(stream: &[u8], most: usize) -> Result<Listed, Refusal>
    requires { (paper.readout stream.now).rest ≡ [] }
    ensures { result ≡ counted_in (paper.readout stream.now).characters most }
{
    let mut entries = Entries::of(stream);
    let mut count = 0;
    while let Some(_) = entries.next()? {
        if count >= most {
            return Err(Refusal::TooManyEntries);
        }
        count += 1;
    }
    let finder = entries.search.finder;
    Ok(Listed {
        entries: count,
        litres: finder.sum,
    })
}

// What an entry says, however it is judged: "a four-digit number ... litres"; nothing, where it is set aside.
fn said(judgement: Judgement) -> Option<Confirmation>
    ensures { result ≡ said judgement }
{
    match judgement {
        Judgement::Accepted(c) | Judgement::Gap(c) | Judgement::Repeated(c) => Some(c),
        Judgement::Aside => None,
    }
}

// 0 accepted, 1 accepted with a gap, 2 repeated, 3 set aside.
fn number_for(judgement: Judgement) -> u8
    ensures { result ≡ judgement_number judgement }
{
    match judgement {
        Judgement::Accepted(_) => 0,
        Judgement::Gap(_) => 1,
        Judgement::Repeated(_) => 2,
        Judgement::Aside => 3,
    }
}

// Puts an entry into the four columns.
fn put_entry(
    entry: Entry,
    at: usize,
    places: &mut [usize],
    numbers: &mut [u16],
    litres: &mut [u32],
    judgements: &mut [u8],
)
    requires { HasPlace at (columns places.old numbers.old litres.old judgements.old) }
    ensures { columns places.new numbers.new litres.new judgements.new
        ≡ with_entry (columns places.old numbers.old litres.old judgements.old) at entry }
{
    let confirmation = said(entry.judgement);
    places[at] = entry.place;
    numbers[at] = confirmation.map_or(0, |c| c.number);
    litres[at] = confirmation.map_or(0, |c| c.litres);
    judgements[at] = number_for(entry.judgement);
}

// Puts all entries of a stream into the fronts of four columns. No refusal comes: nothing is broken, and all can be counted.
#[tactic(auto, using(crate::proofs::Passes::putting_start, crate::proofs::Passes::put_ready, crate::proofs::Passes::has_place, crate::proofs::Passes::puts_one))]
fn put_entries(
    stream: &[u8],
    places: &mut [usize],
    numbers: &mut [u16],
    litres: &mut [u32],
    judgements: &mut [u8],
)
    requires { HasPlaces stream.now (columns places.old numbers.old litres.old judgements.old) }
    ensures { columns places.new numbers.new litres.new judgements.new
        ≡ listed_in (entries_in stream.now) (columns places.old numbers.old litres.old judgements.old) }
{
    let mut entries = Entries::of(stream);
    let mut count = 0;
    while let Ok(Some(entry)) = entries.next() {
        put_entry(entry, count, places, numbers, litres, judgements);
        count += 1;
    }
}

// "16 if the input has more entries than the lent list has places": then, as in every refusal, nothing is written.
#[tactic(auto, using(crate::proofs::Calls::refuses_many))]
fn list_whole(
    stream: &[u8],
    places: &mut [usize],
    numbers: &mut [u16],
    litres: &mut [u32],
    judgements: &mut [u8],
) -> Result<Listed, Refusal>
    requires { (paper.readout stream.now).rest ≡ [] }
    ensures { Promise stream.now
        (columns places.old numbers.old litres.old judgements.old)
        (record { answer = result; list = columns places.new numbers.new litres.new judgements.new }) }
{
    let most = places
        .len()
        .min(numbers.len())
        .min(litres.len().min(judgements.len()));
    let listed = count(stream, most)?;
    put_entries(stream, places, numbers, litres, judgements);
    Ok(listed)
}

// Lists the confirmations of a marked stream in four lent columns, which have as many places as the shortest of them has: how many, and the sum of the
// accepted litres; or refusal 8 or 16, in this order.
#[tactic(auto, using(stream::proofs::Laws::nothing_left, crate::proofs::Calls::refuses_broken))]
pub fn list(
    stream: &[u8],
    places: &mut [usize],
    numbers: &mut [u16],
    litres: &mut [u32],
    judgements: &mut [u8],
) -> Result<Listed, Refusal>
    ensures { Promise stream.now
        (columns places.old numbers.old litres.old judgements.old)
        (record { answer = result; list = columns places.new numbers.new litres.new judgements.new }) }
{
    if let Some(place) = stream::first_broken(stream) {
        return Err(Refusal::BrokenStream(place));
    }
    list_whole(stream, places, numbers, litres, judgements)
}
