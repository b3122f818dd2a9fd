// The lister: reads one box on standard input and prints its plan.
#![tactic(auto)]

ghost use Rattle.std.specs.Prelude.{◌≡◌, length};

// Room for any listing.
fn output_room() -> [u8; 8192]
    ensures { 8192 ≡ length result }
{
    [0u8; 8192]
}

fn main(rt: HostRuntime) {
    let mut input = listing::input_room();
    let Ok(count) = stdio::read_input(&rt, &mut input) else {
        return;
    };
    let mut out = output_room();
    let size = listing::list(&input[..count], &mut out);
    stdio::print(&rt, &out[..size]);
}
