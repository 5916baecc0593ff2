// The system's calls: reading, writing, and a line on standard error where they cannot go on. What they deliver and do lies outside the contracts.
ghost use Rattle.std.specs.Prelude.{◌≤◌, length, IfOk, IfSome};

use std::fmt::InlineText;
use std::io::{Error, ErrorKind, Read, Result};
use std::rt::Clock;
use std::thread;
use std::time::Duration;

// Whether a call that has just failed is to be made again: it was interrupted, or it would have had to wait, and a thousandth of a second has passed.
fn is_to_be_tried_again(rt: &impl Clock, error: &Error) -> bool {
    match error.kind() {
        ErrorKind::Interrupted => true,
        ErrorKind::WouldBlock => {
            thread::sleep(rt, Duration::from_millis(1));
            true
        }
        _ => false,
    }
}

// A line on standard error: what cannot go on, and the number of the last line answered. The crate `io` writes it, so that no caller has to lend a handle
// for it; the longest has 79 bytes.
fn say(what: &str, number: u64) {
    let line = InlineText::<128>::of(format_args!("{what}; last line answered: {number}\n"));
    io::write_all(2, line.as_str().as_bytes());
}

// Says that no run goes on for ever.
pub fn say_used_up(number: u64) {
    say("the turns of one run are used up", number);
}

// Reads at least one byte, and answers how many; 0 where the input has ended, an error where the read failed.
fn read_some<R: Input + Clock>(rt: &R, buffer: &mut [u8]) -> Result<usize>
    ensures { IfOk result (λ n. n ≤ length buffer.old) }
{
    let mut reader = rt.reader();
    for _ in 0..u64::MAX {
        match reader.read(buffer) {
            Err(error) if is_to_be_tried_again(rt, &error) => {}
            outcome => return outcome,
        }
    }
    Err(Error::from(ErrorKind::TimedOut))
}

// How many bytes were read, 0 where the input has ended, as `read` of std answers. A read that failed is said, and delivers none.
pub fn read_input<R: Input + Clock>(rt: &R, buffer: &mut [u8], number: u64) -> Option<usize>
    ensures { IfSome result (λ n. n ≤ length buffer.old) }
{
    match read_some(rt, buffer) {
        Ok(count) => Some(count),
        Err(_) => {
            say("standard input cannot be read on", number);
            None
        }
    }
}

// Writes at least one byte, and answers how many; an error where the write failed.
// A loop like that of `read_some`: one function of a closure for both is no plainer, with clauses on the buffer that each try lends.
fn write_some<R: Print + Clock>(rt: &R, bytes: &[u8]) -> Result<usize>
    ensures { IfOk result (λ n. n ≤ length bytes.now) }
{
    for _ in 0..u64::MAX {
        match rt.write_some(bytes) {
            Err(error) if is_to_be_tried_again(rt, &error) => {}
            outcome => return outcome,
        }
    }
    Err(Error::from(ErrorKind::TimedOut))
}

// Writes the bytes, and answers those that are left where the output cannot be written on.
fn write_most<'a, R: Print + Clock>(rt: &R, bytes: &'a [u8]) -> &'a [u8]
    ensures { length result.now ≤ length bytes.now }
{
    let mut rest = bytes;
    while !rest.is_empty() {
        match write_some(rt, rest) {
            Ok(written) if 0 < written => rest = &rest[written..],
            _ => return rest,
        }
    }
    rest
}

// How many of the bytes end a line.
fn line_ends(bytes: &[u8]) -> u64 {
    bytes.iter().filter(|byte| **byte == b'\n').count() as u64
}

// Writes answers, the last of them to line `number`, and answers whether all were written: the caller needs no more, since an error is said here. A line
// counts as answered once its answer is written with its end.
pub fn write_answers<R: Print + Clock>(rt: &R, answers: &[u8], number: u64) -> bool {
    let left = write_most(rt, answers);
    if left.is_empty() {
        return true;
    }
    let answered = number.saturating_sub(line_ends(left));
    say("standard output cannot be written on", answered);
    false
}
