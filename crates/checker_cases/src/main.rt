// Makes the calls of standard input and prints each with its answer, as `cases` of the crate calls says. The cases are plans, each rule of a round
// broken alone and by one unit on each side. The expected output is written by hand; what it has to be says the Annex, chapter 14.
#![tactic(auto)]

// A write that fails is passed over: the run goes on, and no exit status changes.
fn main(rt: HostRuntime) {
    calls::cases::run_standard_input(&rt);
}
