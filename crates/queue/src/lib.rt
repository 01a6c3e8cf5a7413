// The receive queue by value: the oldest item stands at place 0, and unused places hold zeros.
#![tactic(auto)]

ghost use Rattle.std.specs.Prelude.{◌≡◌, ◌+◌, ◌*◌, ◌<◌, ◌≤◌, length};
ghost use Rattle.paper.specs.Queue as model;
ghost use Rattle.paper.specs.Queue.{oldest, items_of};
ghost use Rattle.paper.specs.Stream.{images};
ghost use Rattle.paper.specs.Channel.{written};
ghost use Rattle.queue.specs.Held.{places, empty, queue_of, queue_in, SoundIn, Sound, placing, ones, handing};

use paper::{Fate, Item, Why};

// The counts stand first, so that the record has no gap but at its end.
#[repr(C)]
#[derive(Clone, Copy)]
pub struct Queue {
    pub count: usize,
    pub losses: u16,
    // 0 plain, 1 doubled, 2 damaged
    pub kinds: [u8; Queue::PLACES],
    pub bytes: [u8; Queue::PLACES],
    // 1 where the item has the overrun flag
    pub flags: [u8; Queue::PLACES],
}

// An arrival's fate, and the queue after it.
#[derive(Clone, Copy)]
pub struct Placed {
    pub fate: Fate,
    pub queue: Queue,
}

// "the characters removed, how many had the overrun flag, and the bytes written", and the queue after a read.
#[derive(Clone, Copy)]
pub struct Handed {
    pub characters: usize,
    pub flagged: usize,
    pub bytes: usize,
    pub queue: Queue,
}

// How many of the flags are set.
fn count_flags(flags: &[u8]) -> usize
    ensures { result ≡ ones flags.now }
{
    flags.iter().filter(|flag| **flag == 1).count()
}

impl Queue {
    // How many items the arrays can hold: as many as a queue holds, today.
    pub const PLACES: usize = paper::DEPTH;

    // "queues empty, ... loss count 0"
    #[tactic(auto, unfolding(crate::specs::Held::queue_of))]
    pub fn fresh() -> Queue
        ensures { result ≡ queue_of places empty }
    {
        Queue {
            kinds: [0; Queue::PLACES],
            bytes: [0; Queue::PLACES],
            flags: [0; Queue::PLACES],
            count: 0,
            losses: 0,
        }
    }

    // One more item, the newest, without the overrun flag.
    fn store(mut self, item: Item) -> Queue
        requires sound { Sound self }
        requires room { self.count < places }
        ensures { result ≡ queue_of places (model.stored item tt (queue_in self)) }
    {
        let newest = self.count;
        self.kinds[newest] = images::kind_of(item);
        self.bytes[newest] = images::byte_of(item);
        self.flags[newest] = 0;
        self.count += 1;
        self
    }

    // "the new one is lost, the newest waiting item gets the overrun flag ... and the loss count rises by 1, staying at 65,535"; 02 a: "the flag goes
    // on the newest item, which is the held one"
    fn overrun(mut self) -> Queue
        requires sound { Sound self }
        requires waiting { 0 < self.count }
        ensures { result ≡ queue_of places (model.overrun (queue_in self)) }
    {
        let newest = self.count - 1;
        self.flags[newest] = 1;
        self.losses = self.losses.saturating_add(1);
        self
    }

    // What an arrival's ruling does to a queue that holds depth items. "If 12 items wait, the new one is lost"; 02 a: "A loss now happens at thirteen"
    #[tactic(auto, unfolding(crate::specs::Held::placing))]
    pub fn place(self, ruling: Result<Item, Why>, depth: usize) -> Placed
        requires sound { SoundIn places depth self }
        requires not_0 { 0 < depth }
        requires within { depth ≤ places }
        ensures { result ≡ placing places depth self ruling }
    {
        match ruling {
            Ok(item) if self.count < depth => Placed {
                fate: Fate::Stored,
                queue: self.store(item),
            },
            Ok(_) => Placed {
                fate: Fate::Lost,
                queue: self.overrun(),
            },
            Err(why) => Placed {
                fate: Fate::Nothing(why),
                queue: self,
            },
        }
    }

    // The oldest n leave; what was held "moves up when a read makes room" (02 a).
    fn remove(self, n: usize) -> Queue
        requires sound { Sound self }
        requires waiting { n ≤ self.count }
        ensures { result ≡ queue_of places (model.removed n (queue_in self)) }
    {
        let mut kinds = [0; Queue::PLACES];
        let mut bytes = [0; Queue::PLACES];
        let mut flags = [0; Queue::PLACES];
        arrays::close_up(&self.kinds, n, &mut kinds);
        arrays::close_up(&self.bytes, n, &mut bytes);
        arrays::close_up(&self.flags, n, &mut flags);
        Queue {
            kinds,
            bytes,
            flags,
            count: self.count - n,
            ..self
        }
    }

    // "removes the oldest min(n, waiting) items and writes their images into the lent buffer from a given place on"
    #[tactic(auto, unfolding(crate::specs::Held::handing))]
    pub fn hand_over(self, n: usize, buffer: &mut [u8], place: usize) -> Handed
        requires sound { Sound self }
        requires room { place + 3 * n ≤ length buffer.old }
        ensures value { result ≡ handing places self n }
        ensures buffer_after { buffer.new ≡ written buffer.old place (images (items_of (oldest n (queue_in self)))) }
    {
        let characters = n.min(self.count);
        let flagged = count_flags(&self.flags[..characters]);
        let bytes = images::put_images(
            &self.kinds[..characters],
            &self.bytes[..characters],
            buffer,
            place,
        );
        let queue = self.remove(characters);
        Handed {
            characters,
            flagged,
            bytes,
            queue,
        }
    }
}
