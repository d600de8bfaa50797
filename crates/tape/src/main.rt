// The tape program: its records are played by one loop over them, which leaves the book in its place. `tape_io` has its work.
#![tactic(auto)]

fn main(rt: HostRuntime) {
    tape_io::run::<tape_io::Loop>(&rt);
}
