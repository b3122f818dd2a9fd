// The refiller's output: a box read, its plan run, and the box of all live nodes written.
#![tactic(auto)]

ghost use Rattle.std.specs.Prelude.{◌≡◌, ◌++◌, ◌*◌, ◌≤◌, length, drop, replicate};
ghost use Rattle.boxes.specs.Box.{block_length_in, node_count_in, box_length};
ghost use Rattle.repair.specs.Boxed.{checked_box, nodes_read};
ghost use Rattle.refilling.specs.Refilled.{box_after_run, refilled_of};

use repair::Session;

// A nodes buffer of zeros, as long as the longest whose box may be written.
fn no_blocks() -> [u8; 65536]
    ensures { result ≡ replicate 65536 0 }
{
    [0u8; 65536]
}

// An accepted box is read into the nodes buffer, its plan is run, every live node is named, and the box of them is put at the front
// of `out`; gives its length.
fn put_refilled(input: &[u8], nodes: &mut [u8], out: &mut [u8]) -> usize
    requires input_value { (checked_box input.now).refusal ≡ 0 }
    requires nodes_len { length nodes.old ≡ node_count_in input.now * block_length_in input.now }
    requires input_in_bounds { box_length (node_count_in input.now) (block_length_in input.now) ≤ length out.old }
    ensures value { result ≡ length (box_after_run (checked_box input.now).session (nodes_read input.now nodes.old)) }
    ensures upper_bound { result ≤ length out.old }
    ensures out_after { out.new ≡ box_after_run (checked_box input.now).session (nodes_read input.now nodes.old) ++ drop (length (box_after_run (checked_box input.now).session (nodes_read input.now nodes.old))) out.old }
{
    let session = Session::read(input, nodes).unwrap();
    let next = session.run(nodes).session;
    let mut list = [0u8; 255];
    let count = next.live_nodes(&mut list).result.unwrap();
    next.write(nodes, &list[..count], out).result.unwrap()
}

// What the refiller writes of its input, at the front of `out`; gives its length. `out` beyond it is not written.
pub fn refill(input: &[u8], out: &mut [u8; 65536]) -> usize
    ensures value { (result ≡ length (refilled_of input.now)) × (result ≤ 65536) }
    ensures out_after { out.new ≡ refilled_of input.now ++ drop (length (refilled_of input.now)) out.old }
{
    if let Err(said) = listing::session_in(input, out) {
        return said;
    }
    let n = boxes::node_count(input);
    let len = boxes::block_length(input);
    let size = n * len;
    if listing::MOST_BYTES < 8 + n + size {
        return listing::put_too_long(out);
    }
    let mut nodes = no_blocks();
    put_refilled(input, &mut nodes[..size], out)
}
