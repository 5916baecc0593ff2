// The command program over random scripts; the expected output is that of oracle/, another implementation. The main of `rounds`
// again, since a crate is tried on one input.
#![tactic(auto)]

fn main(rt: HostRuntime) {
    console::run(&rt);
}
