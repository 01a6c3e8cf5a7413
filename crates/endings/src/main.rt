// Program: the single line-ending setting that does the work of two boxes in a row. FIRST and SECOND as words in, or no word for the whole table.
//
// Its dealings with the world: both words are read before the line is written. What it writes is proved in `tabling`; no contract can say which words
// came or what is written, so these functions are kept thin.
#![tactic(auto)]

ghost use Rattle.std.specs.Prelude.{◌≤◌, length};
ghost use Rattle.tabling.specs.Lines.{longest_pair, longest_table};

use page::Page;
use standard::{read_word, word_count, write_text};
use std::env::Env;

// The longest word that Linux hands to a program on x86-64 has 131071 bytes.
const WORD: usize = 131072;

fn say_usage(rt: &impl Eprint) {
    let _ = rt.eprint(
        "usage: endings [FIRST SECOND]\n\
        FIRST and SECOND are the line-ending settings of two boxes in a row, 0 to 7; what is shown is the single setting that\n\
        does the work of both, or none; or refused 5 4: FIRST or SECOND is no such setting.\n\
        Without words the table of all pairs is shown: a line for each FIRST, a column for each SECOND, - for none.\n",
    );
}

// The table. Whether the output takes it changes nothing more: the program ends.
fn write_table(rt: &(impl Print + Eprint), out: &mut [u8])
    requires { longest_table ≤ length out.old }
{
    let mut page = Page::on(out);
    tabling::put_table(&mut page);
    write_text(rt, page.text());
}

// The line of a pair of words, in the same way.
fn write_pair(rt: &(impl Print + Eprint), first: &[u8], second: &[u8], out: &mut [u8])
    requires { longest_pair ≤ length out.old }
{
    let mut page = Page::on(out);
    tabling::put_pair(&mut page, first, second);
    write_text(rt, page.text());
}

// Both words, and their line.
fn answer_pair(rt: &(impl Env + Print + Eprint), out: &mut [u8])
    requires { longest_pair ≤ length out.old }
{
    let mut first = [0u8; WORD];
    let Some(first_long) = read_word(rt, "FIRST", 1, &mut first) else {
        return;
    };
    let mut second = [0u8; WORD];
    let Some(second_long) = read_word(rt, "SECOND", 2, &mut second) else {
        return;
    };
    write_pair(rt, &first[..first_long], &second[..second_long], out);
}

// The program's own name is counted too.
fn main(rt: HostRuntime) {
    let mut out = [0u8; tabling::LONGEST_TABLE];
    match word_count(&rt) {
        0 | 1 => write_table(&rt, &mut out),
        3 => answer_pair(&rt, &mut out),
        _ => say_usage(&rt),
    }
}
