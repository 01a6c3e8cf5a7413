// A channel's record by value, and its calls: each gives what the paper's step gives on the channel that the record holds.
#![tactic(auto)]

ghost use Rattle.std.specs.Prelude.{[], ◌≡◌};
ghost use Rattle.paper.specs.Settings.{fresh_settings, card_size};
ghost use Rattle.paper.specs.Channel as calls;
ghost use Rattle.paper.specs.Transmitter as lines;
ghost use Rattle.channel.specs.Held.{Sound, channel_of};
ghost use Rattle.channel.specs.Promise.{Promise, AskedPromise, at_threshold};

use paper::{Answer, Answered, Asked, Flags, Refusal, Settings};
use queue::Queue;
use transmitter::Transmitter;

// "Each has settings, a receive queue of 12 items, a transmit queue of 12 bytes, and small flags." 02 a: "One more place is to hold an item behind the
// twelve".
#[repr(C)]
#[derive(Clone, Copy)]
pub struct Channel {
    pub queue: Queue,
    pub transmitter: Transmitter,
    pub settings: Settings,
    pub flags: Flags,
}

impl Channel {
    // How many items the receive queue holds.
    pub const DEPTH: usize = paper::DEPTH;

    // The most that a read asks for, a threshold names and a state shows.
    pub const MOST: u8 = paper::MOST;

    // "1, 1, 0, 0, 0, 0, 0, 1, 0, 0, then hex 11 13 00 00 16"
    pub fn fresh_settings() -> Settings
        ensures { result ≡ fresh_settings }
    {
        Settings {
            damaged: 1,
            breaks: 1,
            strip: 0,
            endings: 0,
            flow: 0,
            implied: 0,
            literal: 0,
            threshold: 1,
            hold: 0,
            expand: 0,
            xon: 0x11,
            xoff: 0x13,
            third: 0x00,
            fourth: 0x00,
            quote: 0x16,
        }
    }

    // "queues empty, nothing pending, transmitter running, CTS 0, loss count 0"
    #[tactic(auto, unfolding(crate::specs::Held::channel_of))]
    pub fn fresh() -> Channel
        ensures { (result ≡ channel_of card_size calls.fresh) × Sound result }
    {
        Channel {
            settings: Channel::fresh_settings(),
            flags: Flags {
                literal: false,
                running: true,
            },
            queue: Queue::fresh(),
            transmitter: Transmitter::fresh(),
        }
    }

    // A refusal: "changes nothing".
    fn refuse(self, refusal: Refusal) -> Answered<Channel>
        ensures { result ≡ record { answer = Answer.Refused refusal; next = self } }
    {
        Answered {
            answer: Answer::Refused(refusal),
            next: self,
        }
    }

    // One arrival. Refusal 2: kind above 3.
    pub fn arrive(mut self, kind: u8, byte: u8) -> Answered<Channel>
        requires { Sound self }
        ensures { Promise self (calls.arrive kind byte) result [] }
    {
        if 3 < kind {
            return self.refuse(Refusal::BadKind);
        }
        let outcome = rules::arrival(self.settings, self.flags, kind, byte);
        let placed = self.queue.place(outcome.ruling, Channel::DEPTH);
        self.flags = outcome.flags;
        self.queue = placed.queue;
        Answered {
            answer: Answer::Fated(placed.fate),
            next: self,
        }
    }

    // "Read n characters, n from 0 to 12". Refusals: 3 more than 12 asked, 4 fewer than 3n bytes from the place to the buffer's end, or the place
    // beyond the end.
    pub fn read(mut self, n: usize, buffer: &mut [u8], place: usize) -> Answered<Channel>
        requires { Sound self }
        ensures { Promise self (calls.read n place buffer.old) result buffer.new }
    {
        if usize::from(Channel::MOST) < n {
            return self.refuse(Refusal::TooMany);
        }
        if buffer.len() < place || buffer.len() - place < 3 * n {
            return self.refuse(Refusal::NoRoom);
        }
        let handed = self.queue.hand_over(n, buffer, place);
        self.queue = handed.queue;
        Answered {
            answer: Answer::Handed(handed.characters, handed.flagged, handed.bytes),
            next: self,
        }
    }

    // Settings. Refusal 5: not 15 bytes (field 0) or the first bad field.
    pub fn take_settings(mut self, bytes: &[u8]) -> Answered<Channel>
        requires { Sound self }
        ensures { Promise self (calls.take_settings bytes.now) result bytes.now }
    {
        match judging::judge(bytes, Channel::MOST) {
            Err(refusal) => self.refuse(refusal),
            Ok(settings) => {
                self.settings = settings;
                self.flags = Flags {
                    literal: false,
                    running: true,
                };
                Answered {
                    answer: Answer::Done,
                    next: self,
                }
            }
        }
    }

    // "Reset makes one channel fresh."
    #[tactic(auto, unfolding(crate::specs::Promise::given, crate::specs::Promise::answered, paper::specs::Channel::channel_step))]
    pub fn reset(self) -> Answered<Channel>
        requires { Sound self }
        ensures { Promise self calls.reset result [] }
    {
        Answered {
            answer: Answer::Done,
            next: Channel::fresh(),
        }
    }

    // "State: waiting items, bytes in the transmit queue ..., stopped (1) or running (0), loss count." 02 a: "State still shows at most 12 waiting".
    // The channel stays as it is.
    pub fn state(self) -> Answer
        requires { Sound self }
        ensures { Promise self calls.state (record { answer = result; next = self }) [] }
    {
        Answer::Shown(
            self.queue.count.min(usize::from(Channel::MOST)),
            self.transmitter.count,
            !self.flags.running,
            self.queue.losses,
        )
    }

    // Any of these calls, by what is asked. The bytes at hand are lent to the calls that take some; the place is a read's.
    pub fn call(self, asked: Asked, bytes: &mut [u8], place: usize) -> Answered<Channel>
        requires { Sound self }
        ensures { AskedPromise self asked bytes.old place result bytes.new }
    {
        match asked {
            Asked::Arrive(kind, byte) => self.arrive(kind, byte),
            Asked::Read(n) => self.read(usize::from(n), bytes, place),
            Asked::TakeSettings => self.take_settings(bytes),
            Asked::Reset => self.reset(),
            Asked::State => Answered {
                answer: self.state(),
                next: self,
            },
            Asked::Load => self.load(bytes),
            Asked::Turn => self.turn(),
            Asked::SetCts(value) => self.set_cts(value),
            Asked::AskSpecial(number) => self.ask_special(number),
        }
    }

    // "waiting items reach its threshold"
    #[tactic(auto, unfolding(crate::specs::Promise::at_threshold, crate::specs::Held::channel_in))]
    pub fn ready(self) -> bool
        requires { Sound self }
        ensures { result ≡ at_threshold self }
    {
        usize::from(self.settings.threshold) <= self.queue.count
    }

    // The channel with another transmitter, and what the transmitter answers.
    fn send(mut self, sent: Answered<Transmitter>) -> Answered<Channel>
        ensures { result ≡ record { answer = sent.answer; next = record self { transmitter = sent.next } } }
    {
        self.transmitter = sent.next;
        Answered {
            answer: sent.answer,
            next: self,
        }
    }

    // "Load: takes the first min(length, room) bytes; answers that number."
    #[tactic(auto, unfolding(paper::specs::Transmitter::transmit_step, transmitter::specs::Held::loads))]
    pub fn load(self, bytes: &[u8]) -> Answered<Channel>
        requires { Sound self }
        ensures { Promise self (calls.transmit (lines.load bytes.now)) result bytes.now }
    {
        self.send(self.transmitter.load(bytes))
    }

    // "Line turn, one character time."
    #[tactic(auto, unfolding(paper::specs::Transmitter::transmit_step, transmitter::specs::Held::turns))]
    pub fn turn(self) -> Answered<Channel>
        requires { Sound self }
        ensures { Promise self (calls.transmit lines.turn) result [] }
    {
        self.send(self.transmitter.turn(self.settings, self.flags))
    }

    // CTS. Refusal 10: neither 0 nor 1.
    #[tactic(auto, unfolding(paper::specs::Transmitter::transmit_step, transmitter::specs::Held::sets_cts))]
    pub fn set_cts(self, value: u8) -> Answered<Channel>
        requires { Sound self }
        ensures { Promise self (calls.transmit (lines.set_cts value)) result [] }
    {
        self.send(self.transmitter.set_cts(value))
    }

    // "Special s from 1 to 4: the present special character s waits for the next turn." Refusals: 6 not 1 to 4, 7 one already waits.
    #[tactic(auto, unfolding(paper::specs::Transmitter::transmit_step, transmitter::specs::Held::asks_special))]
    pub fn ask_special(self, number: u8) -> Answered<Channel>
        requires { Sound self }
        ensures { Promise self (calls.transmit (lines.ask_special number)) result [] }
    {
        self.send(self.transmitter.ask_special(self.settings, number))
    }
}
