// Makes a list of random calls on one planner and prints each with its answer, as the crate calls does. Standard input is `calls SEED N`, where
// SEED is 1 to 2,147,483,646 and N says how many calls. oracle/random_calls.rs, another implementation, states how the list is made, and
// `oracle calls SEED N` prints the same; what is to be printed comes from there.
#![tactic(auto)]

use calls::Host;
use calls::line::line_of;
use draws::Draws;
use seen::Seen;

mod draws;
mod mood;
mod next;
mod own;
mod packet;
mod plan;
mod seen;

fn step(host: &mut Host, seen: &mut Seen, d: Draws) {
    let Some(call) = next::call(seen, d) else {
        seen.held = false;
        let plan = plan::make(host.planner, seen.mood, d);
        return host.check(plan.as_slice());
    };
    let answered = host.make(call);
    seen.note(call, answered, d);
}

fn run(rt: &HostRuntime) {
    let mut buffer = [0; 4096];
    let [seed, wanted, ..] = line_of(text::input(&mut buffer)).numbers;
    let mut host = Host::new(rt);
    let mut seen = Seen::default();
    let mut draw = seed;
    for _ in 0..wanted {
        let d = Draws::after(draw);
        draw = d.e;
        step(&mut host, &mut seen, d);
    }
}

// A write that fails is passed over: the run goes on, and no exit status changes.
fn main(rt: HostRuntime) {
    run(&rt);
}
