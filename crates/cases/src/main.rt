// The command program over all scripts of vectors/ but the long one, end to end. Input and expected output are made by vectors/make, the output by
// the oracle. The main of `rounds` again, since a crate is tried on one input.
#![tactic(auto)]

fn main(rt: HostRuntime) {
    console::run(&rt);
}
