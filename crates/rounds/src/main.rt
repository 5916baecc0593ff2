// The command program, as it is shipped. `cases` and `random` are the same over an input of their own: a crate is tried on one.
#![tactic(auto)]

fn main(rt: HostRuntime) {
    console::run(&rt);
}
