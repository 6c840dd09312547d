// The listing program: lists the prefix lines of the records on standard input. All of it stands in the crate `programs`.
#![tactic(auto)]

// Runs it. What failed it has said itself, and the status stays 0.
fn main(rt: HostRuntime) {
    let _ = programs::listing(&mut rt.stdin(), &mut rt.stdout(), &mut rt.stderr());
}
