// The command of the damage report.
#![tactic(auto)]

fn main(rt: HostRuntime) {
    report_command::start(&rt);
}
