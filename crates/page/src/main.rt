// The page program: draws the records on standard input as text. All of it stands in the crate `programs`.
#![tactic(auto)]

// Runs it. What failed it has said itself, and the status stays 0.
fn main(rt: HostRuntime) {
    let _ = programs::page(&mut rt.stdin(), &mut rt.stdout(), &mut rt.stderr());
}
