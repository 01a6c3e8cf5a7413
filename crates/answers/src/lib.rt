// An answer as a line: which of the lines of crate printing it is.
#![tactic(auto)]

ghost use Rattle.std.specs.Prelude.{◌≡◌, [], ◌≤◌};
ghost use Rattle.page.specs.Page.{shown, with_text};
ghost use Rattle.printing.specs.Printed.{longest};
ghost use Rattle.answers.specs.AnswerLine.{second_number, answer_line, Small};

use page::Page;
use paper::Answer;

// "fate"; or "taken"; or "00", by the last arm; or "the channel picked, FF for none": what follows 00 where it is one number.
fn second_number(answer: Answer) -> u8
    requires { Small answer [] }
    ensures { result ≡ second_number answer }
{
    match answer {
        Answer::Fated(fate) => printing::fate_number(fate),
        Answer::Took(taken) => taken as u8,
        Answer::Picked(channel) => channel,
        Answer::NoneReady => 0xFF,
        _ => 0,
    }
}

// The line of an answer to which nothing was lent.
fn put_plain(page: &mut Page<'_>, answer: Answer)
    requires { longest ≤ (shown page.old).room × Small answer [] }
    ensures { shown page.new ≡ with_text (answer_line answer []) (shown page.old) }
{
    match answer {
        Answer::Refused(refusal) => printing::put_refused(page, refusal),
        Answer::Handed(characters, flagged, bytes) => printing::put_handed(
            page, characters, flagged, bytes, b"",
        ),
        Answer::Sent(byte) => printing::put_sent(page, byte),
        Answer::Done => printing::put_alone(page, 0),
        Answer::Shown(waiting, sending, stopped, losses) => printing::put_shown(
            page, waiting, sending, stopped, losses,
        ),
        _ => printing::put_pair(page, 0, second_number(answer)),
    }
}

// The answer's line: what a read handed over stands in the lent bytes, and of any other answer nothing does.
pub fn put_answer(page: &mut Page<'_>, answer: Answer, lent: &[u8])
    requires { longest ≤ (shown page.old).room × Small answer lent.now }
    ensures { shown page.new ≡ with_text (answer_line answer lent.now) (shown page.old) }
{
    match answer {
        Answer::Handed(characters, flagged, bytes) => printing::put_handed(
            page, characters, flagged, bytes, lent,
        ),
        _ => put_plain(page, answer),
    }
}

// SHORT WAYS, one for each sort of call but the read, whose own answer put_answer asks for first. The answers that a call mostly gives are written
// without asking for the others; any other answer is written all the same, for the promise is that of put_answer.

// An arrival's answer: a fate, but for a refusal.
pub fn put_arrival(page: &mut Page<'_>, answer: Answer)
    requires { longest ≤ (shown page.old).room × Small answer [] }
    ensures { shown page.new ≡ with_text (answer_line answer []) (shown page.old) }
{
    match answer {
        Answer::Fated(fate) => printing::put_pair(page, 0, printing::fate_number(fate)),
        _ => put_plain(page, answer),
    }
}

// A load's answer: how many of the bytes it took.
pub fn put_load(page: &mut Page<'_>, answer: Answer, loaded: &[u8])
    requires { longest ≤ (shown page.old).room × Small answer loaded.now }
    ensures { shown page.new ≡ with_text (answer_line answer loaded.now) (shown page.old) }
{
    match answer {
        Answer::Took(taken) => printing::put_pair(page, 0, taken as u8),
        _ => put_answer(page, answer, loaded),
    }
}

// A line turn's answer: nothing, or the byte sent.
pub fn put_turn(page: &mut Page<'_>, answer: Answer)
    requires { longest ≤ (shown page.old).room × Small answer [] }
    ensures { shown page.new ≡ with_text (answer_line answer []) (shown page.old) }
{
    match answer {
        Answer::Silent => printing::put_pair(page, 0, 0),
        Answer::Sent(byte) => printing::put_sent(page, byte),
        _ => put_plain(page, answer),
    }
}

// The answer of CTS, special, reset and settings, which were lent bytes: done, but for a refusal.
pub fn put_change(page: &mut Page<'_>, answer: Answer, bytes: &[u8])
    requires { longest ≤ (shown page.old).room × Small answer bytes.now }
    ensures { shown page.new ≡ with_text (answer_line answer bytes.now) (shown page.old) }
{
    match answer {
        Answer::Done => printing::put_alone(page, 0),
        _ => put_answer(page, answer, bytes),
    }
}

// The state's answer: what is shown.
pub fn put_state(page: &mut Page<'_>, answer: Answer)
    requires { longest ≤ (shown page.old).room × Small answer [] }
    ensures { shown page.new ≡ with_text (answer_line answer []) (shown page.old) }
{
    match answer {
        Answer::Shown(waiting, sending, stopped, losses) => printing::put_shown(
            page, waiting, sending, stopped, losses,
        ),
        _ => put_plain(page, answer),
    }
}
