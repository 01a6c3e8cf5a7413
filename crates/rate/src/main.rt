// Program: divisor and period for a clock and the wanted rates. CLOCK and RATEs as words in, a line for each rate out.
//
// Its dealings with the world: a rate's word is read, and its line written, before the next one is read. What it writes is proved in `fitting`; no
// contract can say which words came or what is written, so these functions are kept thin.
#![tactic(auto)]

ghost use Rattle.std.specs.Prelude.{◌+◌, ◌*◌, ◌≤◌, length};
ghost use Rattle.fitting.specs.Lines.{longest, longest_line};

use page::Page;
use standard::{read_word, word_count, write_text};
use std::env::Env;

// The longest word that Linux hands to a program on x86-64 has 131071 bytes; the longest line has what stands behind it besides.
const WORD: usize = 131072;

fn say_usage(rt: &impl Eprint) {
    let _ = rt.eprint(
        "usage: rate CLOCK [RATE...]\n\
        CLOCK is 1000000 to 60000000 Hz, RATE 1 to 230400; without a RATE the usual ones are shown.\n\
        Each line is RATE DIVISOR PERIOD DEVIATION, the deviation in millionths of the rate;\n\
        or RATE refused 12: CLOCK or RATE outside its range; or RATE refused 13: no pair within 25000 millionths.\n",
    );
}

// The lines of the usual rates. Whether the output takes them changes nothing more: the program ends.
fn write_usual(rt: &(impl Print + Eprint), clock: u32, out: &mut [u8])
    requires { 20 * longest_line ≤ length out.old }
{
    let mut page = Page::on(out);
    fitting::put_usual(&mut page, clock);
    write_text(rt, page.text());
}

// The line of one word; whether the next one can follow.
fn write_rate(
    rt: &(impl Env + Print + Eprint),
    clock: u32,
    i: usize,
    word: &mut [u8],
    out: &mut [u8],
) -> bool
    requires { length word.old + longest ≤ length out.old }
{
    let Some(long) = read_word(rt, "RATE", i, word) else {
        return false;
    };
    let mut page = Page::on(out);
    fitting::put_rate(&mut page, clock, &word[..long]);
    write_text(rt, page.text())
}

fn main(rt: HostRuntime) {
    let count = word_count(&rt);
    if count < 2 {
        say_usage(&rt);
        return;
    }
    let mut word = [0u8; WORD];
    let mut out = [0u8; WORD + fitting::LONGEST];
    let Some(long) = read_word(&rt, "CLOCK", 1, &mut word) else {
        return;
    };
    let clock = decimal::number_of(&word[..long]);
    if count == 2 {
        write_usual(&rt, clock, &mut out);
        return;
    }
    for i in 2..count {
        if !write_rate(&rt, clock, i, &mut word, &mut out) {
            return;
        }
    }
}
