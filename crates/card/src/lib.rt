// The card by value: four channels' records and the pick's place. Each call gives what the paper's step gives on the card that the record holds.
#![tactic(auto)]

ghost use Rattle.std.specs.Prelude.{[], ◌≡◌};
ghost use Rattle.paper.specs.Settings.{card_size};
ghost use Rattle.paper.specs.Card.{pick, fresh_card};
ghost use Rattle.card.specs.Held.{Sound, card_of};
ghost use Rattle.card.specs.Promise.{Promise, AskedPromise, next_ready};

use channel::Channel;
use paper::{Answer, Answered, Asked, Refusal};

// "Four channels, 0 to 3"; place is the channel that a pick last named.
#[derive(Clone, Copy)]
pub struct Card {
    pub channels: [Channel; 4],
    pub place: u8,
}

impl Card {
    // "a fresh card looks at 0 first"
    #[tactic(auto, unfolding(crate::specs::Held::card_of))]
    pub fn fresh() -> Card
        ensures { (result ≡ card_of card_size fresh_card) × Sound result }
    {
        let channel = Channel::fresh();
        Card {
            channels: [channel; 4],
            place: 3,
        }
    }

    // A call that names a channel, by what is asked of it. The bytes at hand are lent to the calls that take some; the place is a read's. Refusal 1:
    // channel above 3.
    pub fn call(
        mut self,
        channel: u8,
        asked: Asked,
        bytes: &mut [u8],
        place: usize,
    ) -> Answered<Card>
        requires { Sound self }
        ensures { AskedPromise self channel asked bytes.old place result bytes.new }
    {
        if 3 < channel {
            return Answered {
                answer: Answer::Refused(Refusal::BadChannel),
                next: self,
            };
        }
        let named = usize::from(channel);
        let given = self.channels[named].call(asked, bytes, place);
        self.channels[named] = given.next;
        Answered {
            answer: given.answer,
            next: self,
        }
    }

    // The search of a pick: "the first channel after the last named one, going round 0 to 3, whose waiting items reach its threshold".
    pub fn next_ready(self) -> Option<u8>
        requires { Sound self }
        ensures { result ≡ next_ready self }
    {
        let [zero, one, two, three] = self.channels;
        let ready = [zero.ready(), one.ready(), two.ready(), three.ready()];
        picking::look(self.place, ready)
    }

    // "Pick"; "None: says so, and the place stays."
    pub fn pick(mut self) -> Answered<Card>
        requires { Sound self }
        ensures { Promise self pick result [] }
    {
        let answer = match self.next_ready() {
            None => Answer::NoneReady,
            Some(n) => {
                self.place = n;
                Answer::Picked(n)
            }
        };
        Answered { answer, next: self }
    }
}
