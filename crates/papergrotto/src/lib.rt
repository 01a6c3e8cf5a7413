// For C: the calls of a polling loop, which "lends one channel's record and finds it altered where it stands", the reader of a marked stream, the list
// of its confirmations, the choice of a rate, and the single setting of two boxes. include/papergrotto.h declares them.
#![tactic(auto)]

ghost use Rattle.std.specs.Prelude.{[], ◌≡◌, length};
ghost use Rattle.paper.specs.Settings.{card_size};
ghost use Rattle.paper.specs.Channel as calls;
ghost use Rattle.paper.specs.Transmitter as lines;
ghost use Rattle.paper.specs.Stream as paper;
ghost use Rattle.paper.specs.Confirmations as confirmations;
ghost use Rattle.paper.specs.Rate as rates;
ghost use Rattle.paper.specs.TwoBoxes.{one_ending};
ghost use Rattle.paper.specs.declared.Answered.{Answered};
ghost use Rattle.channel.specs.declared.Channel.{Channel};
ghost use Rattle.channel.specs.Held.{Sound, channel_of};
ghost use Rattle.channel.specs.Promise.{at_threshold};
ghost use Rattle.telling.specs.Told.{told, reading_told, listing_told, choosing_told, ending_told};
ghost use Rattle.confirming.specs.Promise.{columns};
ghost use Rattle.papergrotto.specs.Promise.{Promise};

use channel::Channel;
use paper::Answered;
use telling::Told;

// What a call leaves is stored where the record stood, and what it answers is told.
fn stored(channel: &mut Channel, answered: Answered<Channel>) -> Told
    ensures { (result ≡ told answered.answer) × (channel.new ≡ answered.next) }
{
    *channel = answered.next;
    telling::tell(answered.answer)
}

// A call on the record that is lent.
fn served<F: FnOnce(Channel) -> Answered<Channel>>(channel: &mut Channel, call: F) -> Told
    requires { F.pre call channel.old }
    ensures { (r : Answered Channel) × F.post call channel.old r
        × (result ≡ told r.answer) × (channel.new ≡ r.next) }
{
    let answered = call(*channel);
    stored(channel, answered)
}

// A fresh record.
#[unsafe(no_mangle)]
pub extern "C" fn papergrotto_fresh() -> Channel
    ensures { (result ≡ channel_of card_size calls.fresh) × Sound result }
{
    Channel::fresh()
}

// One arrival at the channel that is lent.
#[unsafe(no_mangle)]
pub extern "C" fn papergrotto_arrive(channel: &mut Channel, kind: u8, byte: u8) -> Told
    requires { Sound channel.old }
    ensures { Promise channel.old (calls.arrive kind byte) result channel.new [] }
{
    served(channel, |c| c.arrive(kind, byte))
}

// "Line turn, one character time", of the channel that is lent.
#[unsafe(no_mangle)]
pub extern "C" fn papergrotto_turn(channel: &mut Channel) -> Told
    requires { Sound channel.old }
    ensures { Promise channel.old (calls.transmit lines.turn) result channel.new [] }
{
    served(channel, |c| c.turn())
}

// "Read n characters", into a lent buffer "from a given place on".
#[unsafe(no_mangle)]
pub extern "C" fn papergrotto_read(
    channel: &mut Channel,
    n: usize,
    buffer: &mut [u8],
    place: usize,
) -> Told
    requires { Sound channel.old }
    ensures { Promise channel.old (calls.read n place buffer.old)
        result channel.new buffer.new }
{
    let old = *channel;
    let given = old.read(n, buffer, place);
    stored(channel, given)
}

// "Load: takes the first min(length, room) bytes; answers that number."
#[unsafe(no_mangle)]
pub extern "C" fn papergrotto_load(channel: &mut Channel, bytes: &[u8]) -> Told
    requires { Sound channel.old }
    ensures { Promise channel.old (calls.transmit (lines.load bytes.now))
        result channel.new bytes.now }
{
    served(channel, |c| c.load(bytes))
}

// Settings, as 15 bytes.
#[unsafe(no_mangle)]
pub extern "C" fn papergrotto_take_settings(channel: &mut Channel, bytes: &[u8]) -> Told
    requires { Sound channel.old }
    ensures { Promise channel.old (calls.take_settings bytes.now)
        result channel.new bytes.now }
{
    served(channel, |c| c.take_settings(bytes))
}

// CTS, 0 or 1.
#[unsafe(no_mangle)]
pub extern "C" fn papergrotto_set_cts(channel: &mut Channel, value: u8) -> Told
    requires { Sound channel.old }
    ensures { Promise channel.old (calls.transmit (lines.set_cts value)) result channel.new [] }
{
    served(channel, |c| c.set_cts(value))
}

// "Special s from 1 to 4: the present special character s waits for the next turn."
#[unsafe(no_mangle)]
pub extern "C" fn papergrotto_ask_special(channel: &mut Channel, number: u8) -> Told
    requires { Sound channel.old }
    ensures { Promise channel.old (calls.transmit (lines.ask_special number)) result channel.new [] }
{
    served(channel, |c| c.ask_special(number))
}

// "State": the record goes by value and stays as it is.
#[unsafe(no_mangle)]
pub extern "C" fn papergrotto_state(channel: Channel) -> Told
    requires { Sound channel }
    ensures { Promise channel calls.state result channel [] }
{
    telling::tell(channel.state())
}

// "waiting items reach its threshold": what a pick asks of a channel.
#[unsafe(no_mangle)]
pub extern "C" fn papergrotto_ready(channel: Channel) -> bool
    requires { Sound channel }
    ensures { result ≡ at_threshold channel }
{
    channel.ready()
}

// "Reading a marked stream": how many items, into the fronts of two lent buffers.
#[unsafe(no_mangle)]
pub extern "C" fn papergrotto_decode(stream: &[u8], sorts: &mut [u8], bytes: &mut [u8]) -> Told
    ensures value { result ≡ reading_told (paper.decode stream.now sorts.old bytes.old).answer }
    ensures sorts_after { sorts.new ≡ (paper.decode stream.now sorts.old bytes.old).sorts }
    ensures bytes_after { bytes.new ≡ (paper.decode stream.now sorts.old bytes.old).bytes }
{
    telling::tell_reading(stream::decode(stream, sorts, bytes))
}

// "the front of a stream up to its first FF": it starts where the stream does, so C has its length.
#[unsafe(no_mangle)]
pub extern "C" fn papergrotto_clean_front(stream: &[u8]) -> usize
    ensures { result ≡ length (paper.clean_front stream.now) }
{
    let front = stream::clean_front(stream);
    front.len()
}

// 02 n, "Confirmations": the entries of a stream, in four lent columns; how many, and the sum of the accepted litres.
#[unsafe(no_mangle)]
pub extern "C" fn papergrotto_confirmations(
    stream: &[u8],
    places: &mut [usize],
    numbers: &mut [u16],
    litres: &mut [u32],
    judgements: &mut [u8],
) -> Told
    ensures value { result ≡ listing_told (confirmations.confirm stream.now
        (columns places.old numbers.old litres.old judgements.old)).answer }
    ensures judgements_after { columns places.new numbers.new litres.new judgements.new
        ≡ (confirmations.confirm stream.now
        (columns places.old numbers.old litres.old judgements.old)).list }
{
    telling::tell_listing(confirming::list(stream, places, numbers, litres, judgements))
}

// 02 c, "Choosing the rate": divisor, period, and the deviation in millionths, by its size and its sign.
#[unsafe(no_mangle)]
pub extern "C" fn papergrotto_rate(clock: u32, wanted: u32) -> Told
    ensures { result ≡ choosing_told (rates.choose clock wanted) }
{
    telling::tell_choosing(choosing::choose(clock, wanted))
}

// 02 h, "Two boxes in a row": 1 and the single line-ending setting that does the work of both, or 0 where none does.
#[unsafe(no_mangle)]
pub extern "C" fn papergrotto_one_ending(first: u32, second: u32) -> Told
    ensures { result ≡ ending_told (one_ending first second) }
{
    telling::tell_ending(joining::one_ending(first, second))
}
