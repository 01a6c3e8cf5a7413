// From a call to its answer line.
#![tactic(auto)]

ghost use Rattle.std.proofs.Math.Option.{some};
ghost use Rattle.std.specs.Prelude.{◌≤◌, replicate};
ghost use Rattle.page.specs.Page.{shown};
ghost use Rattle.paper.specs.Transmitter as lines;
ghost use Rattle.paper.specs.Channel as calls;
ghost use Rattle.paper.specs.Card as model;
ghost use Rattle.paper.specs.Frames.{lent_bytes};
ghost use Rattle.channel.specs.Held as channel;
ghost use Rattle.channel.specs.Held.{size_of};
ghost use Rattle.card.specs.Held.{Sound};
ghost use Rattle.printing.specs.Printed.{longest};
ghost use Rattle.calling.specs.Said.{Says, Answers};

use card::Card;
use channel::Channel;
use page::Page;

// THE CALLS, one for each frame. Each puts its answer's line on the page.

// "01 channel kind byte"
pub fn arrive(c: &mut Channel, kind: u8, byte: u8, page: &mut Page<'_>)
    requires { channel.Sound c.old × (longest ≤ (shown page.old).room) }
    ensures { Says c.old (calls.arrive kind byte) (shown page.old) c.new (shown page.new) }
{
    let given = c.arrive(kind, byte);
    *c = given.next;
    answers::put_arrival(page, given.answer);
}

// "02 channel n (lent 36 bytes, place 0)"
pub fn read(c: &mut Channel, n: u8, page: &mut Page<'_>)
    requires { channel.Sound c.old × (longest ≤ (shown page.old).room) }
    ensures { Says c.old (calls.read n 0 (replicate (lent_bytes (size_of c.old)) 0)) (shown page.old) c.new (shown page.new) }
{
    let mut lent = [0u8; paper::LENT];
    let given = c.read(usize::from(n), &mut lent, 0);
    *c = given.next;
    answers::put_answer(page, given.answer, &lent);
}

// "03 channel and 0 to 32 bytes"
pub fn load(c: &mut Channel, bytes: &[u8], page: &mut Page<'_>)
    requires { channel.Sound c.old × (longest ≤ (shown page.old).room) }
    ensures { Says c.old (calls.transmit (lines.load bytes.now)) (shown page.old) c.new (shown page.new) }
{
    let given = c.load(bytes);
    *c = given.next;
    answers::put_load(page, given.answer, bytes);
}

// "04 channel (turn)"
pub fn turn(c: &mut Channel, page: &mut Page<'_>)
    requires { channel.Sound c.old × (longest ≤ (shown page.old).room) }
    ensures { Says c.old (calls.transmit lines.turn) (shown page.old) c.new (shown page.new) }
{
    let given = c.turn();
    *c = given.next;
    answers::put_turn(page, given.answer);
}

// "05 channel CTS"
pub fn set_cts(c: &mut Channel, value: u8, page: &mut Page<'_>)
    requires { channel.Sound c.old × (longest ≤ (shown page.old).room) }
    ensures { Says c.old (calls.transmit (lines.set_cts value)) (shown page.old) c.new (shown page.new) }
{
    let given = c.set_cts(value);
    *c = given.next;
    answers::put_change(page, given.answer, b"");
}

// "06 channel special"
pub fn ask_special(c: &mut Channel, number: u8, page: &mut Page<'_>)
    requires { channel.Sound c.old × (longest ≤ (shown page.old).room) }
    ensures { Says c.old (calls.transmit (lines.ask_special number)) (shown page.old) c.new (shown page.new) }
{
    let given = c.ask_special(number);
    *c = given.next;
    answers::put_change(page, given.answer, b"");
}

// "07 channel and 0 to 32 bytes of settings"
pub fn take_settings(c: &mut Channel, bytes: &[u8], page: &mut Page<'_>)
    requires { channel.Sound c.old × (longest ≤ (shown page.old).room) }
    ensures { Says c.old (calls.take_settings bytes.now) (shown page.old) c.new (shown page.new) }
{
    let given = c.take_settings(bytes);
    *c = given.next;
    answers::put_change(page, given.answer, bytes);
}

// "09 channel (reset)"
pub fn reset(c: &mut Channel, page: &mut Page<'_>)
    requires { channel.Sound c.old × (longest ≤ (shown page.old).room) }
    ensures { Says c.old calls.reset (shown page.old) c.new (shown page.new) }
{
    let given = c.reset();
    *c = given.next;
    answers::put_change(page, given.answer, b"");
}

// "0A channel (state)"
pub fn state(c: &Channel, page: &mut Page<'_>)
    requires { channel.Sound c.now × (longest ≤ (shown page.old).room) }
    ensures { Says c.now calls.state (shown page.old) c.now (shown page.new) }
{
    answers::put_state(page, c.state());
}

// "08 (pick)": answers "the channel picked, FF for none". The card's place after it.
pub fn pick(card: Card, page: &mut Page<'_>) -> u8
    requires { Sound card × (longest ≤ (shown page.old).room) }
    ensures { Answers card (some model.pick) (shown page.old) result (shown page.new) }
{
    match card.next_ready() {
        None => {
            printing::put_pair(page, 0, 0xFF);
            card.place
        }
        Some(found) => {
            printing::put_pair(page, 0, found);
            found
        }
    }
}
