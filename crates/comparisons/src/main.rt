// The test of request 3: "compare a new block that meets none with at most 32 earlier ones, counted in a test".
#![tactic(auto)]

fn main(rt: HostRuntime) {
    let mut out = [0u8; 512];
    block_orders::table::print(&rt, &mut out);
}
