// The audit command, the same program as h5audit: a program has one stored test.
#![tactic(auto)]

fn main(rt: HostRuntime) {
    command::start(&rt);
}
