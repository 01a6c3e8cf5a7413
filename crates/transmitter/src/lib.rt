// The transmitter of one channel by value: load, line turn, CTS and special.
#![tactic(auto)]

ghost use Rattle.std.specs.Prelude.{◌≡◌, false, ◌&&◌, ◌<◌, ◌≤◌, eqb};
ghost use Rattle.paper.specs.Arrival.{NL};
ghost use Rattle.paper.specs.Transmitter.{fresh_transmitter, held, special_character};
ghost use Rattle.transmitter.specs.Held.{Sound, transmitter_of, transmitter_in, loads, sends_next, turns, sets_cts, asks_special};

use paper::{Answer, Answered, Flags, Refusal, Settings};

// "a transmit queue of 12 bytes", the oldest at place 0, zeros behind the last; an owed NL; whether a special character waits, and
// which (0 where none does); CTS.
#[repr(C)]
#[derive(Clone, Copy)]
pub struct Transmitter {
    pub count: usize,
    pub bytes: [u8; Transmitter::DEPTH],
    pub owed: bool,
    pub waits: bool,
    pub special: u8,
    pub cts: bool,
}

// "CR 0D, NL 0A"
const CR: u8 = 0x0D;

const NL: u8 = 0x0A;

impl Transmitter {
    pub const DEPTH: usize = 12;

    // "queues empty, nothing pending, ... CTS 0"
    #[tactic(auto, unfolding(crate::specs::Held::transmitter_of, paper::specs::Transmitter::transmit_depth))]
    pub fn fresh() -> Transmitter
        ensures { result ≡ transmitter_of fresh_transmitter }
    {
        Transmitter {
            count: 0,
            bytes: [0; Transmitter::DEPTH],
            owed: false,
            waits: false,
            special: 0,
            cts: false,
        }
    }

    // "takes the first min(length, room) bytes; answers that number. Load of nothing takes 0."
    #[tactic(auto, unfolding(paper::specs::Transmitter::transmit_depth))]
    pub fn load(mut self, bytes: &[u8]) -> Answered<Transmitter>
        requires { Sound self }
        ensures { result ≡ loads self bytes.now }
    {
        let count = self.count;
        let taken = bytes.len().min(Transmitter::DEPTH - count);
        let mut queue = self.bytes;
        for i in 0..taken {
            queue[count + i] = bytes[i];
        }
        self.bytes = queue;
        self.count = count + taken;
        Answered {
            answer: Answer::Took(taken),
            next: self,
        }
    }

    // "A waiting special goes first, even when stopped or CTS is 0, even between CR and its NL. Else nothing goes if stopped, or if
    // field 9 is 1 and CTS is 0."
    #[tactic(auto, unfolding(crate::specs::Held::sends_next, crate::specs::Held::transmitter_in))]
    pub fn turn(mut self, s: Settings, f: Flags) -> Answered<Transmitter>
        requires { Sound self }
        ensures { result ≡ turns s f self }
    {
        if self.waits {
            let special = self.special;
            self.waits = false;
            self.special = 0;
            return Answered {
                answer: Answer::Sent(special),
                next: self,
            };
        }
        if self.is_held(s, f) {
            return Answered {
                answer: Answer::Silent,
                next: self,
            };
        }
        self.send_next(s)
    }

    // "nothing goes if stopped, or if field 9 is 1 and CTS is 0"
    #[tactic(auto, unfolding(crate::specs::Held::transmitter_in))]
    fn is_held(self, s: Settings, f: Flags) -> bool
        ensures { result ≡ held s f (transmitter_in self) }
    {
        !f.running || s.hold == 1 && !self.cts
    }

    // "Else an owed NL; else the head of the queue; else nothing." "An owed NL is sent even if field 10 was since turned off."
    #[tactic(auto, unfolding(crate::specs::Held::sends_next))]
    fn send_next(mut self, s: Settings) -> Answered<Transmitter>
        requires { Sound self }
        ensures { result ≡ sends_next s self self.owed }
    {
        if self.owed {
            self.owed = false;
            return Answered {
                answer: Answer::Sent(NL),
                next: self,
            };
        }
        if self.count == 0 {
            return Answered {
                answer: Answer::Silent,
                next: self,
            };
        }
        self.send_head(s)
    }

    // "With field 10, a queued NL goes out as CR, leaves the queue and owes an NL."
    #[tactic(auto, unfolding(paper::specs::Transmitter::transmit_depth))]
    fn send_head(mut self, s: Settings) -> Answered<Transmitter>
        requires { (Sound self) × (0 < self.count) }
        ensures { result ≡ sends_next s self false }
    {
        let queued = self.bytes;
        self.bytes = [0; Transmitter::DEPTH];
        arrays::close_up(&queued, 1, &mut self.bytes);
        self.count -= 1;
        self.owed = owes_nl(s, queued[0]);
        Answered {
            answer: Answer::Sent(if self.owed { CR } else { queued[0] }),
            next: self,
        }
    }

    // Refusal 10, "CTS neither 0 nor 1"
    #[tactic(auto, unfolding(crate::specs::Held::sets_cts))]
    pub fn set_cts(mut self, value: u8) -> Answered<Transmitter>
        requires { Sound self }
        ensures { result ≡ sets_cts self value }
    {
        if 1 < value {
            return Answered {
                answer: Answer::Refused(Refusal::BadCts),
                next: self,
            };
        }
        self.cts = value == 1;
        Answered {
            answer: Answer::Done,
            next: self,
        }
    }

    // "the present special character s waits for the next turn"; refusal 6, "special not 1 to 4", before 7, "a special already waits"
    #[tactic(auto, unfolding(crate::specs::Held::asks_special))]
    pub fn ask_special(mut self, s: Settings, number: u8) -> Answered<Transmitter>
        requires { Sound self }
        ensures { result ≡ asks_special s self number }
    {
        if !(1..=4).contains(&number) {
            return Answered {
                answer: Answer::Refused(Refusal::BadSpecial),
                next: self,
            };
        }
        if self.waits {
            return Answered {
                answer: Answer::Refused(Refusal::SpecialWaits),
                next: self,
            };
        }
        self.waits = true;
        self.special = special_character(s, number);
        Answered {
            answer: Answer::Done,
            next: self,
        }
    }
}

// "With field 10, a queued NL ... owes an NL."
fn owes_nl(s: Settings, b: u8) -> bool
    ensures { result ≡ (eqb s.expand 1 && eqb b NL) }
{
    s.expand == 1 && b == NL
}

// Fields 11 to 14: "special characters 1 to 4".
fn special_character(s: Settings, number: u8) -> u8
    requires { (1 ≤ number) × (number ≤ 4) }
    ensures { result ≡ special_character s number }
{
    let characters = [s.xon, s.xoff, s.third, s.fourth];
    characters[usize::from(number - 1)]
}
