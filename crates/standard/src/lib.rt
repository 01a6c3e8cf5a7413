// Standard input, standard output and the words that a program was started with, as the programs read and write them: a call that was interrupted is
// made again. No contract can say what is read or written, so nothing else is done here.
#![tactic(auto)]

ghost use Rattle.std.specs.Prelude.{◌≤◌, length, IfSome};

use std::env::{Env, FillError};
use std::io::{Error, ErrorKind, Read};

// Whether a call failed only because it was interrupted. An output that was closed is no news; any other failure is said.
fn is_interrupted(rt: &impl Eprint, what: &str, error: Error) -> bool {
    match error.kind() {
        ErrorKind::Interrupted => true,
        ErrorKind::BrokenPipe => false,
        _ => {
            // a failure that cannot be said either is left at that
            let _ = eprintln!(rt; "{what}: {error}");
            false
        }
    }
}

// One read, however often it is interrupted: how many bytes came, 0 at the input's end, or none where it failed,
// which was then said.
pub fn read_piece<R: Read>(rt: &impl Eprint, input: &mut R, piece: &mut [u8]) -> Option<usize>
    ensures { IfSome result (λ got. got ≤ length piece.new) }
{
    for _ in 0..u64::MAX {
        match input.read(piece) {
            Ok(got) => return Some(got),
            Err(error) => {
                if !is_interrupted(rt, "standard input", error) {
                    return None;
                }
            }
        }
    }
    Some(0)
}

// Writes all of a text, by as many writes as it takes. False where the output takes no more: one that was closed ends the program quietly, and any
// other failure is said.
pub fn write_text(rt: &(impl Print + Eprint), text: &[u8]) -> bool {
    let mut rest = text;
    for _ in 0..u64::MAX {
        if rest.is_empty() {
            return true;
        }
        match rt.write_some(rest) {
            Ok(took) => rest = &rest[took..],
            Err(error) => {
                if !is_interrupted(rt, "standard output", error) {
                    return false;
                }
            }
        }
    }
    rest.is_empty()
}

// How many words the program was started with, its own name among them.
pub fn word_count(rt: &impl Env) -> usize {
    let mut front = [0u8; 1];
    for count in 0..usize::MAX {
        if let Err(FillError::NotPresent) = rt.arg(count, &mut front) {
            return count;
        }
    }
    usize::MAX
}

// The word that stands at this place: how long it is, or none where it can't be had, which was then said.
pub fn read_word(
    rt: &(impl Env + Eprint),
    what: &str,
    place: usize,
    word: &mut [u8],
) -> Option<usize>
    ensures { IfSome result (λ long. long ≤ length word.new) }
{
    match rt.arg(place, word) {
        Ok(long) => Some(long),
        Err(FillError::NotPresent) => {
            let _ = eprintln!(rt; "{what}: there is no such word");
            None
        }
        Err(FillError::TooLong) => {
            let _ = eprintln!(rt; "{what}: the word is too long");
            None
        }
    }
}
