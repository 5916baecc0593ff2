// The program `accept PLANNER PLAN`: whether a plan that somebody else made is sound from a planner on. PLANNER is a script of the command program's
// lines, which builds the planner; PLAN is the plan's packets end to end. It writes one line, the verdict, to standard output. Whatever is wrong with
// its arguments or files is one line on standard error, and then there is no verdict.
#![tactic(auto)]

use files::MOST_BYTES;
use std::env::FillError;
use std::rt::Env;

mod complaint;
mod files;
mod script;
mod verdict;

fn say_usage(rt: HostRuntime) {
    let _ = eprintln!(rt;
        "usage: accept PLANNER PLAN
  PLANNER  a script of the command program that builds the planner to begin from
  PLAN     the plan's packets end to end; neither file may have more than {MOST_BYTES} bytes
It writes one line: sound, and how many rounds; or the first round that breaks a rule,
what is in it, and which rule (annex, chapter 14); or that the planner is not sound."
    );
}

// Whether there is an argument i. One that is longer than the byte is there too.
fn is_given(rt: &impl Env, i: usize) -> bool {
    let mut byte = [0u8; 1];
    !matches!(rt.arg(i, &mut byte), Err(FillError::NotPresent))
}

// Whether the first argument asks for the usage.
fn is_help(rt: &impl Env) -> bool {
    let mut word = [0u8; 6];
    matches!(rt.arg(1, &mut word), Ok(n) if &word[..n] == b"--help".as_slice())
}

// The script is read and run, then the plan is read into the same space and judged.
fn judge(rt: HostRuntime, space: &mut [u8]) {
    let Some(script) = files::read_argument(rt, 1, space) else {
        return;
    };
    let Ok(planner) = script::planner_of(rt, script) else {
        return;
    };
    let Some(plan) = files::read_argument(rt, 2, space) else {
        return;
    };
    verdict::say(rt, planner, plan);
}

// Room for the longest file; the place more shows whether one is longer.
fn main(rt: HostRuntime) {
    if !is_given(&rt, 1) || is_help(&rt) {
        return say_usage(rt);
    }
    if !is_given(&rt, 2) || is_given(&rt, 3) {
        let _ = eprintln!(rt; "accept: it takes two arguments, PLANNER and PLAN; --help says more");
        return;
    }
    let Ok(mut space) = vec![in rt.alloc(); 0u8; MOST_BYTES + 1] else {
        let _ = eprintln!(rt; "accept: there is no memory to read a file into");
        return;
    };
    judge(rt, &mut space);
}
