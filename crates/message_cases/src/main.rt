// Makes the calls of standard input, a line each, on one planner, which begins closed, and prints each with its answer, as the crate calls does:
//   O,B,F,G,T,MESSAGES   A,ID,S,P,D   D,ID   S,NUMBER   R LENGTH
// A line with a small letter sets a number in the planner that is kept, and is answered by nothing: `memory` of the crate calls says which.
// A line that begins with # is printed as it is. The last line makes no call if it has no end.
// The cases are those of messages, every refusal on its edge. The expected output is written by hand; what it has to be says the Annex, 3.14 to
// 3.17 and chapter 7.
#![tactic(auto)]

use calls::{Host, line};

// A line with its end, if it has one.
fn run_line(host: &mut Host, line: &[u8]) {
    match line::begun(line) {
        comment @ [b'#', ..] => {
            let _ = host.rt.write_all(comment);
        }
        [call @ .., b'\n'] => host.run_line(call),
        _ => {}
    }
}

fn run(rt: &HostRuntime) {
    let mut buffer = [0; 65536];
    let mut host = Host::new(rt);
    for line in text::input(&mut buffer).split_inclusive(|c| *c == b'\n') {
        run_line(&mut host, line);
    }
}

// A write that fails is passed over: the run goes on, and no exit status changes.
fn main(rt: HostRuntime) {
    run(&rt);
}
