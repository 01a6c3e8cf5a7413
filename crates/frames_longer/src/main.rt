// Test case: the frame program on a longer trace. `tests/longer` says what it meets, and where its answers come from.
#![tactic(auto)]

fn main(rt: HostRuntime) {
    shell::start(&rt);
}
