// The command of the damage report, the same program as h5report: a program has one stored test.
#![tactic(auto)]

fn main(rt: HostRuntime) {
    report_command::start(&rt);
}
