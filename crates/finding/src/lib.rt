// 02 n: the finder of confirmations, one character a call, by value and in constant memory; and the search through a marked stream, byte by byte, which
// may stop and go on anywhere. What they mean stands in specs/.
#![tactic(auto)]

ghost use Rattle.std.specs.Prelude.{◌≡◌, ◌+◌, ◌≤◌, ◌<◌, length, Some, Ok, Err, IfSome};
ghost use Rattle.std.specs.List.{prefix_len};
ghost use Rattle.paper.specs.Confirmations.{judgement_on, counted, litres_of, furthest};
ghost use Rattle.finding.specs.Finder as the;
ghost use Rattle.finding.specs.Bounds.{character, SoundForm, SoundRun, SoundLast, SoundFinder, SoundSearch};
ghost use Rattle.finding.specs.Search as searched;
ghost use Rattle.finding.specs.Stretches as stretches;
ghost use Rattle.finding.specs.Walk.{Follows, Walks};

use paper::{Confirmation, Entry, FURTHEST, Judgement};

// "STX (02)", "ETX (03)"
const STX: u8 = 0x02;

const ETX: u8 = 0x03;

// The form of the characters of a run so far: how many there are, and what they spell.
#[derive(Clone, Copy)]
pub struct Form {
    pub seen: u8,
    pub number: u16,
    pub litres: u32,
}

impl Form {
    // "a four-digit number, a space, one to six digits of litres": the form with one byte more; none, where that is of another form.
    #[tactic(auto, using(crate::proofs::Steps::number_small, crate::proofs::Steps::litres_small, crate::proofs::Steps::form_space, crate::proofs::Steps::form_number, crate::proofs::Steps::form_litres, crate::proofs::Steps::form_no_space, crate::proofs::Steps::form_low, crate::proofs::Steps::form_high, crate::proofs::Steps::form_long))]
    fn step(self, byte: u8) -> Option<Form>
        requires { SoundForm self }
        ensures { result ≡ the.form_step self byte }
    {
        match (self.seen, byte) {
            (4, b' ') => Some(Form { seen: 5, ..self }),
            (0..=3, b'0'..=b'9') => Some(Form {
                seen: self.seen + 1,
                number: 10 * self.number + u16::from(byte - b'0'),
                ..self
            }),
            (5..=10, b'0'..=b'9') => Some(Form {
                seen: self.seen + 1,
                litres: 10 * self.litres + u32::from(byte - b'0'),
                ..self
            }),
            _ => None,
        }
    }

    // The form with all of some bytes more.
    fn over(self, bytes: &[u8]) -> Option<Form>
        requires { SoundForm self }
        ensures { result ≡ stretches.form_over (Some self) bytes.now }
    {
        let mut form = self;
        for &byte in bytes {
            form = form.step(byte)?;
        }
        Some(form)
    }
}

// "A number equal to the one last accepted is reported as repeated ...; any other than the next one (0000 follows 9999) ... as a gap." "The first is
// accepted without a gap."
#[tactic(auto, unfolding(paper::specs::Confirmations::judgement_on, paper::specs::Confirmations::next))]
fn judgement_on(last: Option<u16>, c: Confirmation) -> Judgement
    requires { SoundLast last }
    ensures { result ≡ judgement_on last c }
{
    match last {
        None => Judgement::Accepted(c),
        Some(n) if c.number == n => Judgement::Repeated(c),
        Some(n) if c.number == (n + 1) % 10000 => Judgement::Accepted(c),
        Some(_) => Judgement::Gap(c),
    }
}

// An unfinished run: the place of its STX, whether it holds a damaged character, and its form so far; none, where it is of another form.
#[derive(Clone, Copy)]
pub struct Begun {
    pub place: usize,
    pub damaged: bool,
    pub form: Option<Form>,
}

impl Begun {
    // A run with one character more.
    fn grown(self, damaged: bool, byte: u8) -> Begun
        requires { IfSome self.form SoundForm }
        ensures { result ≡ the.grown self (character damaged byte) }
    {
        Begun {
            damaged: self.damaged || damaged,
            form: self.form.and_then(|form| form.step(byte)),
            ..self
        }
    }

    // What it says, where it ends here.
    #[tactic(auto, using(crate::proofs::Steps::litres_whole, crate::proofs::Steps::content_none, crate::proofs::Steps::content_short, crate::proofs::Steps::content_right))]
    fn content(self) -> Option<Confirmation>
        requires { IfSome self.form SoundForm }
        ensures value { result ≡ the.content_in self.form }
        ensures litres_bound { IfSome result (λ c. c.litres ≤ 999999) }
    {
        let form = self.form?;
        if form.seen < 6 {
            return None;
        }
        Some(Confirmation {
            number: form.number,
            litres: form.litres,
        })
    }

    // A run with some good characters more.
    fn over(self, bytes: &[u8]) -> Begun
        requires { IfSome self.form SoundForm }
        ensures { result ≡ stretches.grown_over self bytes.now }
    {
        Begun {
            form: self.form.and_then(|form| form.over(bytes)),
            ..self
        }
    }
}

// The finder: how many characters have passed, the run they leave open, the number last accepted, and the litres accepted.
#[derive(Clone, Copy)]
pub struct Finder {
    pub passed: usize,
    pub run: Option<Begun>,
    pub last: Option<u16>,
    pub sum: usize,
}

// The finder behind a character, and the entry that it tells, if it tells one.
#[derive(Clone, Copy)]
pub struct Step {
    pub finder: Finder,
    pub entry: Option<Entry>,
}

// Why it goes no further: an FF is broken, by its place in bytes; or places or litres cannot be counted, by the place of the first character that is not.
#[derive(Clone, Copy)]
pub enum Stop {
    Broken(usize),
    Full(usize),
}

impl Finder {
    // A character that ends nothing.
    fn quiet(self, run: Option<Begun>) -> Step
        requires { SoundFinder self }
        ensures { result ≡ the.quiet self run }
    {
        Step {
            finder: Finder {
                passed: self.passed + 1,
                run,
                ..self
            },
            entry: None,
        }
    }

    // One of the run that is open, if one is.
    fn grow(self, damaged: bool, byte: u8) -> Step
        requires { SoundFinder self }
        ensures { result ≡ the.quiet self (the.grow self.run (character damaged byte)) }
    {
        self.quiet(self.run.map(|run| run.grown(damaged, byte)))
    }

    // An entry, and what is accepted of it.
    fn tell(self, entry: Entry) -> Step
        requires sound_finder { SoundFinder self }
        requires judgement_bound { litres_of (counted entry.judgement) ≤ 999999 }
        ensures { result ≡ the.tell self entry }
    {
        let finder = Finder {
            passed: self.passed + 1,
            run: None,
            ..self
        };
        match entry.judgement {
            // "any other ... is accepted"
            Judgement::Accepted(c) | Judgement::Gap(c) => Step {
                finder: Finder {
                    last: Some(c.number),
                    sum: self.sum + c.litres as usize,
                    ..finder
                },
                entry: Some(entry),
            },
            // "repeated and adds no litres"; "set aside, never counted as litres"
            Judgement::Repeated(_) | Judgement::Aside => Step {
                finder,
                entry: Some(entry),
            },
        }
    }

    // "One that holds a damaged character is listed as set aside ...; an undamaged one of another form isn't listed."
    #[tactic(auto, using(crate::proofs::Steps::close_aside, crate::proofs::Steps::close_unlisted, crate::proofs::Steps::close_listed, crate::proofs::Steps::counted_small))]
    fn close(self, run: Begun) -> Step
        requires sound_finder { SoundFinder self }
        requires sound_form { IfSome run.form SoundForm }
        ensures { result ≡ the.close self (the.closing (Some run)) }
    {
        if run.damaged {
            return self.tell(Entry {
                place: run.place,
                judgement: Judgement::Aside,
            });
        }
        let Some(confirmation) = run.content() else {
            return self.quiet(None);
        };
        self.tell(Entry {
            place: run.place,
            judgement: judgement_on(self.last, confirmation),
        })
    }

    // One character more: "from a good STX to the next good ETX; a new good STX abandons an unfinished one".
    #[tactic(auto, using(crate::proofs::Steps::step_damaged, crate::proofs::Steps::step_start, crate::proofs::Steps::step_finish, crate::proofs::Steps::step_inner))]
    fn follow(self, damaged: bool, byte: u8) -> Step
        requires { SoundFinder self }
        ensures { result ≡ the.step self (character damaged byte) }
    {
        if damaged {
            return self.grow(damaged, byte);
        }
        match byte {
            STX => self.quiet(Some(Begun {
                place: self.passed,
                damaged: false,
                form: Some(Form {
                    seen: 0,
                    number: 0,
                    litres: 0,
                }),
            })),
            ETX => match self.run {
                Some(run) => self.close(run),
                None => self.quiet(None),
            },
            _ => self.grow(damaged, byte),
        }
    }

    // The finder takes one character more, where its place and the litres can still be counted.
    #[tactic(auto, using(crate::proofs::Steps::beyond_places, crate::proofs::Steps::beyond_litres, crate::proofs::Steps::still_counted))]
    pub fn advance(self, damaged: bool, byte: u8) -> Result<Step, Stop>
        requires { SoundFinder self }
        ensures { result ≡ the.advance self (character damaged byte) }
    {
        let next = self.follow(damaged, byte);
        if next.finder.passed > FURTHEST || next.finder.sum > FURTHEST {
            return Err(Stop::Full(self.passed));
        }
        Ok(next)
    }
}

// THE SEARCH through a marked stream.

const FF: u8 = 0xFF;

// What of a character has been read: nothing, an FF, an FF 00.
#[derive(Clone, Copy)]
pub enum PartRead {
    Nothing,
    Mark,
    MarkZero,
}

// Where a search stands: what of a character has been read, the place of that character's first byte, and the finder behind all before it.
#[derive(Clone, Copy)]
pub struct Search {
    pub part: PartRead,
    pub place: usize,
    pub finder: Finder,
}

// The search behind a byte, and the entry that it tells, if it tells one.
#[derive(Clone, Copy)]
pub struct Taken {
    pub search: Search,
    pub entry: Option<Entry>,
}

// Where a search stands in a piece of a stream: behind the byte that told an entry, or at the piece's end.
#[derive(Clone, Copy)]
pub struct Next {
    pub at: usize,
    pub search: Search,
    pub entry: Option<Entry>,
}

// Where a search stopped in a piece, behind the byte beyond which it goes no further; the search before that byte; and why.
#[derive(Clone, Copy)]
pub struct StoppedAt {
    pub at: usize,
    pub search: Search,
    pub stop: Stop,
}

impl Search {
    // The beginning of a stream.
    pub fn beginning() -> Search
        ensures { result ≡ searched.beginning }
    {
        Search {
            part: PartRead::Nothing,
            place: 0,
            finder: Finder {
                passed: 0,
                run: None,
                last: None,
                sum: 0,
            },
        }
    }

    // A character is begun, or goes on.
    fn wait(self, part: PartRead) -> Taken
        ensures { result ≡ searched.waits self part }
    {
        Taken {
            search: Search { part, ..self },
            entry: None,
        }
    }

    // A whole character, of so many bytes: the finder takes it.
    #[tactic(auto, using(crate::proofs::Searching::place_fits, crate::proofs::Searching::passes, crate::proofs::Searching::pass_stops))]
    fn pass(self, width: usize, damaged: bool, byte: u8) -> Result<Taken, Stop>
        requires sound_search { SoundSearch self }
        requires width_bound { width ≤ 3 }
        ensures { result ≡ searched.pass self width (character damaged byte) }
    {
        let step = self.finder.advance(damaged, byte)?;
        Ok(Taken {
            search: Search {
                part: PartRead::Nothing,
                place: self.place + width,
                finder: step.finder,
            },
            entry: step.entry,
        })
    }

    // One byte more: "FF FF is good FF; FF 00 x is damaged x; any other byte but FF is a good byte ... FF before any other byte ... is broken".
    #[tactic(auto, using(crate::proofs::Searching::mark_begins, crate::proofs::Searching::good_one, crate::proofs::Searching::doubled_one, crate::proofs::Searching::zero_follows, crate::proofs::Searching::broken_one, crate::proofs::Searching::damaged_one))]
    pub fn take(self, byte: u8) -> Result<Taken, Stop>
        requires { SoundSearch self }
        ensures { result ≡ searched.take self byte }
    {
        match (self.part, byte) {
            (PartRead::Nothing, FF) => Ok(self.wait(PartRead::Mark)),
            (PartRead::Nothing, _) => self.pass(1, false, byte),
            (PartRead::Mark, FF) => self.pass(2, false, FF),
            (PartRead::Mark, 0) => Ok(self.wait(PartRead::MarkZero)),
            (PartRead::Mark, _) => Err(Stop::Broken(self.place)),
            (PartRead::MarkZero, _) => self.pass(3, true, byte),
        }
    }

    // Behind a STRETCH of good characters that neither begin nor end a run, at once.
    #[tactic(auto, unfolding(crate::specs::Stretches::behind))]
    fn behind(self, stretch: &[u8]) -> Search
        requires sound_search { SoundSearch self }
        requires length_bound { self.finder.passed + length stretch.now ≤ furthest }
        ensures { result ≡ stretches.behind self stretch.now }
    {
        Search {
            place: self.place + stretch.len(),
            finder: Finder {
                passed: self.finder.passed + stretch.len(),
                run: self.finder.run.map(|run| run.over(stretch)),
                ..self.finder
            },
            ..self
        }
    }

    // Between two characters: behind the stretch that begins here, where all that is left of the piece can be counted; and how long it is.
    fn settle(self, piece: &[u8]) -> (usize, Search)
        requires sound_search { SoundSearch self }
        ensures { Follows piece.now 0 self None result.0 result.1 }
    {
        let PartRead::Nothing = self.part else {
            return (0, self);
        };
        if piece.len() > FURTHEST - self.finder.passed {
            return (0, self);
        }
        let count = stretch_length(piece);
        (count, self.behind(&piece[..count]))
    }

    // Goes on in a piece from a place, to the next byte that tells an entry.
    #[tactic(auto, using(crate::proofs::Walking::follows_start, crate::proofs::Walking::follows_slice, crate::proofs::Walking::walks_to_end, crate::proofs::Walking::walks_to_stop))]
    pub fn go_on(self, piece: &[u8], from: usize) -> Result<Next, StoppedAt>
        requires sound_search { SoundSearch self }
        requires from_in_bounds { from ≤ length piece.now }
        ensures { Walks piece.now from self result }
    {
        let mut at = from;
        let mut search = self;
        while at < piece.len() {
            let (count, settled) = search.settle(&piece[at..]);
            at += count;
            if at == piece.len() {
                return Ok(Next {
                    at,
                    search: settled,
                    entry: None,
                });
            }
            let taken = settled.take(piece[at]);
            at += 1;
            let taken = match taken {
                Ok(taken) => taken,
                Err(stop) => {
                    return Err(StoppedAt {
                        at,
                        search: settled,
                        stop,
                    });
                }
            };
            search = taken.search;
            if taken.entry.is_some() {
                return Ok(Next {
                    at,
                    search,
                    entry: taken.entry,
                });
            }
        }
        Ok(Next {
            at,
            search,
            entry: None,
        })
    }
}

// How many bytes stand before the first FF, STX or ETX: all, where none comes.
fn stretch_length(piece: &[u8]) -> usize
    ensures { result ≡ prefix_len stretches.is_plain piece.now }
{
    piece
        .iter()
        .take_while(|&&byte| !matches!(byte, FF | STX | ETX))
        .count()
}
