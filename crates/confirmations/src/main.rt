// Program: the yield sheet. A marked stream in, its confirmations and their litres out.
//
// Its dealings with the world: it reads standard input to its end, however long, in constant memory, and writes what is found in a piece before it
// reads on. What it finds and writes is proved in `reporting`; no contract can say what is read or written, so these functions are kept thin.
#![tactic(auto)]

ghost use Rattle.std.specs.Prelude.{◌≡◌, ◌≤◌};
ghost use Rattle.page.specs.Page.{shown};
ghost use Rattle.finding.specs.Bounds.{SoundSearch};
ghost use Rattle.sheet.specs.Lines.{longest};
ghost use Rattle.confirmations.specs.Carried.{search_of, GoesOn, Leaves};

use finding::Search;
use page::Page;
use standard::{read_piece, write_text};

// How many bytes are read at once, and how many of the sheet are written.
const PIECE: usize = 65536;

// What is carried from piece to piece: the search, and whether there is more to write.
#[derive(Clone, Copy)]
enum Carried {
    Open(Search),
    // the last line was put
    Over(Search),
    // the output was closed
    Closed(Search),
}

impl Carried {
    fn search(self) -> Search
        ensures { result ≡ search_of self }
    {
        match self {
            Carried::Open(search) | Carried::Over(search) | Carried::Closed(search) => search,
        }
    }
}

// Reports a piece, and writes out what is found whenever there is no room for more, and at the end.
#[tactic(auto, using(crate::proofs::Pieces::begins, crate::proofs::Pieces::goes_on_sound))]
fn list(rt: &(impl Print + Eprint), before: Carried, piece: &[u8], page: &mut Page<'_>) -> Carried
    requires { GoesOn before × (longest ≤ (shown page.old).capacity) }
    ensures same_page { (shown page.new).capacity ≡ (shown page.old).capacity }
    ensures sound_search { SoundSearch (search_of result) }
    ensures leaves { Leaves piece.now (search_of before) result }
{
    let start = before.search();
    let mut search = start;
    let mut at: usize = 0;
    while at < piece.len() {
        page.clear();
        let reported = reporting::report(search, piece, at, page);
        search = reported.search;
        at = reported.at;
        if !write_text(rt, page.text()) {
            return Carried::Closed(search);
        }
        if reported.over {
            return Carried::Over(search);
        }
    }
    Carried::Open(search)
}

// The last line, at the input's end. Whether the output takes it changes nothing more: the program ends.
fn close(rt: &(impl Print + Eprint), carried: Carried, page: &mut Page<'_>)
    requires { GoesOn carried × (longest ≤ (shown page.old).capacity) }
{
    page.clear();
    reporting::finish(carried.search(), page);
    write_text(rt, page.text());
}

fn main(rt: HostRuntime) {
    let mut carried = Carried::Open(Search::beginning());
    let mut input = rt.reader();
    let mut piece = [0u8; PIECE];
    let mut out = [0u8; PIECE];
    let mut page = Page::on(&mut out);
    for _ in 0..u64::MAX {
        match read_piece(&rt, &mut input, &mut piece) {
            // of an input that failed nobody knows the sum: no last line
            None => return,
            Some(0) => {
                close(&rt, carried, &mut page);
                return;
            }
            Some(n) => carried = list(&rt, carried, &piece[..n], &mut page),
        }
        match carried {
            Carried::Open(_) => {}
            // the last line was put: the rest of the input changes nothing
            Carried::Over(_) => return,
            Carried::Closed(_) => return,
        }
    }
}
