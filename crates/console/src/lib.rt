// The command program: standard input to standard output, in large reads. What a line does is the library's; here lines that a read has cut
// in two are put together again, and every answer is handed over before more is read. The system's calls stand in `system`.
#![tactic(auto)]

ghost use Rattle.std.specs.Prelude.{◌≡◌, ◌≤◌, Some, length};
ghost use Rattle.console.specs.declared.Outcome.TheVariants.{Ended};
ghost use Rattle.console.specs.Session.{CanKeep, CanRefill, IsTurned};
ghost use Rattle.console.specs.Needs.{IsBegun, CanAnswer, HasAnswered, CanAnswerLast, HasAnsweredLast, handed_over, IsMoved, IsKept, IsRefilled};

use command::{ROOM, Reached};
use std::rt::Clock;

mod system;

// As much of a line is kept as tells what it says: a longer one is malformed whatever follows.
const MOST_KEPT: usize = 64;

// A proved loop has to end, and nothing says that the input does: so there is a number of turns that no run uses up. It also keeps line numbers
// below 64 bits.
const MOST_TURNS: u64 = 1 << 47;

// What has been reached in the input at hand, and how many bytes of it there are: the buffer is lent to each turn, and `Session` says which part is used.
#[derive(Clone, Copy)]
pub struct Session {
    pub reached: Reached,
    pub have: usize,
}

// What follows a turn: another one, or the end of the run, where the input has ended, or where it cannot be read on or the output not be written on.
#[derive(Clone, Copy)]
pub enum Outcome {
    GoesOn,
    Ended,
    Failed,
}

// A turn: how many bytes of the output were handed over, how many were read, and what follows.
#[derive(Clone, Copy)]
pub struct Turn {
    pub session: Session,
    pub wrote: usize,
    pub got: usize,
    pub outcome: Outcome,
}

// Nothing has been read and nothing written.
fn begun() -> Session
    ensures { IsBegun result }
{
    Session {
        reached: command::beginning(),
        have: 0,
    }
}

// Whole lines of the input at hand are answered, until none is left or the output may be too short for the next answer.
fn answer_lines_in_range(s: Session, input: &[u8], out: &mut [u8]) -> Session
    requires { CanAnswer s input.now out.old }
    ensures { HasAnswered s input.now out.new result }
{
    let reached = command::run_lines_in_range(s.reached, &input[..s.have], out);
    Session { reached, ..s }
}

// What is left at the end of the input is a line too.
fn answer_last_in_range(s: Session, input: &[u8], out: &mut [u8]) -> Session
    requires { CanAnswerLast s input.now out.old }
    ensures { HasAnsweredLast s input.now out.new result }
{
    let reached = command::run_last_in_range(s.reached, &input[..s.have], out);
    Session { reached, ..s }
}

// What stood in the output has been handed over: the output is empty again, and nothing else has changed.
fn handed_over(s: Session) -> Session
    ensures { result ≡ handed_over s }
{
    Session {
        reached: Reached {
            end: 0,
            ..s.reached
        },
        ..s
    }
}

// What is left of a line goes to the front, as much of it as is kept.
fn move_to_front_in_range(input: &mut [u8], from: usize, have: usize) -> usize
    requires { (from ≤ have) × (have ≤ length input.old) }
    ensures { IsMoved from have input.old input.new result }
{
    let kept = MOST_KEPT.min(have - from);
    input.copy_within(from..from + kept, 0);
    kept
}

// The input at hand is the rest of a line, and room behind it.
fn keep_rest_in_range(s: Session, input: &mut [u8]) -> Session
    requires { CanKeep s input.old }
    ensures { IsKept s input.old input.new result }
{
    let have = move_to_front_in_range(input, s.reached.from, s.have);
    let reached = Reached {
        from: 0,
        ..s.reached
    };
    Session { reached, have }
}

// What follows a read: no bytes end the input.
fn after_read(read: Option<usize>) -> Outcome
    ensures { result ≡ Ended → read ≡ Some 0 }
{
    match read {
        Some(0) => Outcome::Ended,
        Some(_) => Outcome::GoesOn,
        None => Outcome::Failed,
    }
}

// The rest of a line is kept, and more is read behind it. After a failed read the rest is no line.
fn refilled_in_range<R: Input + Clock>(rt: &R, s: Session, input: &mut [u8], wrote: usize) -> Turn
    requires { CanRefill s input.old }
    ensures { IsRefilled s wrote input.old input.new result }
{
    let kept = keep_rest_in_range(s, input);
    let read = system::read_input(rt, &mut input[kept.have..], kept.reached.number);
    let got = read.unwrap_or(0);
    let session = Session {
        have: kept.have + got,
        ..kept
    };
    Turn {
        session,
        wrote,
        got,
        outcome: after_read(read),
    }
}

// Whole lines are answered and the answers handed over; then more is read, unless a whole line may be left.
fn turn_in_range<R: Input + Print + Clock>(
    rt: &R,
    s: Session,
    input: &mut [u8],
    out: &mut [u8],
) -> Turn
    requires { CanAnswer s input.old out.old }
    ensures { IsTurned s input.old input.new out.new result }
{
    let answered = answer_lines_in_range(s, input, out);
    let wrote = answered.reached.end;
    let is_written = system::write_answers(rt, &out[..wrote], answered.reached.number);
    let session = handed_over(answered);
    if !is_written {
        return Turn {
            session,
            wrote,
            got: 0,
            outcome: Outcome::Failed,
        };
    }
    let room = out.len() - wrote;
    if room < ROOM {
        return Turn {
            session,
            wrote,
            got: 0,
            outcome: Outcome::GoesOn,
        };
    }
    refilled_in_range(rt, session, input, wrote)
}

// What is left at the end of the input is answered, and the answer handed over.
fn finish_in_range<R: Print + Clock>(rt: &R, s: Session, input: &[u8], out: &mut [u8])
    requires { CanAnswerLast s input.now out.old }
{
    let last = answer_last_in_range(s, input, out);
    system::write_answers(rt, &out[..last.reached.end], last.reached.number);
}

// Turns, until the input has ended or a read or a write has failed.
pub fn run<R: Input + Print + Clock>(rt: &R) {
    let mut input = io::large_buffer();
    let mut out = io::large_buffer();
    let mut s = begun();
    for _turns in 0..MOST_TURNS {
        let turn = turn_in_range(rt, s, &mut input, &mut out);
        s = turn.session;
        match turn.outcome {
            Outcome::GoesOn => {}
            Outcome::Ended => return finish_in_range(rt, s, &input, &mut out),
            Outcome::Failed => return,
        }
    }
    system::say_used_up(s.reached.number);
}
