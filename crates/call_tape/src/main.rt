// The tape program by single calls: the same input and the same lines, but for each record a record call, which gets the book that the one
// before returned. `tape_io` has its work.
#![tactic(auto)]

fn main(rt: HostRuntime) {
    tape_io::run::<tape_io::Calls>(&rt);
}
