// 02 n: the yield sheet of a stream that comes in pieces: a line for each entry as it is found, and a last line.
#![tactic(auto)]

ghost use Rattle.std.specs.Prelude.{◌≡◌, ◌≤◌, length};
ghost use Rattle.finding.specs.Bounds.{SoundSearch};
ghost use Rattle.page.specs.Page.{shown, with_text};
ghost use Rattle.sheet.specs.Lines.{longest};
ghost use Rattle.reporting.specs.Reports as the;

use finding::{PartRead, Search, Stop};
use page::Page;
use paper::Entry;
use sheet::{put_broken, put_entry, put_full, put_litres};

// Where reporting stands: the search, the place in the piece, and whether the last line was put.
#[derive(Clone, Copy)]
pub struct Reported {
    pub search: Search,
    pub at: usize,
    pub over: bool,
}

// The line of an entry, if one was told.
#[tactic(auto, unfolding(crate::specs::Reports::told_line))]
fn put_told(page: &mut Page<'_>, told: Option<Entry>)
    requires { longest ≤ (shown page.old).room }
    ensures { shown page.new ≡ with_text (the.told_line told) (shown page.old) }
{
    if let Some(entry) = told {
        put_entry(page, entry);
    }
}

// The last line: nothing follows a broken FF, nor a character that cannot be counted.
#[tactic(auto, unfolding(crate::specs::Reports::stop_line))]
fn put_stop(page: &mut Page<'_>, stop: Stop)
    requires { longest ≤ (shown page.old).room }
    ensures { shown page.new ≡ with_text (the.stop_line stop) (shown page.old) }
{
    match stop {
        Stop::Broken(place) => put_broken(page, place),
        Stop::Full(place) => put_full(page, place),
    }
}

// Reports a piece from a place on, until it ends, or there is no room for one line more, or the last line was put because the stream is broken or
// can be counted no further.
#[tactic(auto, using(crate::proofs::Loop::starts, crate::proofs::Loop::stops_at_end, crate::proofs::Loop::stops_full))]
pub fn report(start: Search, piece: &[u8], from: usize, page: &mut Page<'_>) -> Reported
    requires { SoundSearch start × (from ≤ length piece.now) }
    ensures { the.Reports start piece.now from (shown page.old) result (shown page.new) }
{
    let mut search = start;
    let mut at = from;
    while at < piece.len() && page.takes(sheet::LONGEST) {
        match search.go_on(piece, at) {
            Ok(next) => {
                search = next.search;
                at = next.at;
                put_told(page, next.entry);
            }
            Err(stopped) => {
                put_stop(page, stopped.stop);
                return Reported {
                    search: stopped.search,
                    at: stopped.at,
                    over: true,
                };
            }
        }
    }
    Reported {
        search,
        at,
        over: false,
    }
}

// The last line at the input's end: `litres SUM`, or `refused 8 PLACE` where a character is "cut off at the end".
pub fn finish(search: Search, page: &mut Page<'_>)
    requires { longest ≤ (shown page.old).room }
    ensures { the.Finishes search (shown page.old) (shown page.new) }
{
    match search.part {
        PartRead::Nothing => put_litres(page, search.finder.sum),
        PartRead::Mark | PartRead::MarkZero => put_broken(page, search.place),
    }
}
