// The refiller: reads one box on standard input, runs its plan and writes the box of all live nodes.
#![tactic(auto)]

fn main(rt: HostRuntime) {
    let mut input = listing::input_room();
    let Ok(count) = stdio::read_input(&rt, &mut input) else {
        return;
    };
    let mut out = io::large_buffer();
    let size = refilling::refill(&input[..count], &mut out);
    stdio::print(&rt, &out[..size]);
}
