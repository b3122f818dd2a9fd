// The data blocks of an object, out of the nodes that hold one each.
#![tactic(auto)]

ghost use Rattle.std.specs.Prelude.{◌≡◌, ◌*◌, ◌≤◌, length};
ghost use Rattle.base.specs.Numbers.{numbered};
ghost use Rattle.families.specs.Families.{node_count};
ghost use Rattle.readout.specs.DataBlocks.{data_node, missing_block, data_blocks};

use families::Code;

// The node of data block i.
fn data_node(code: Code, i: usize) -> usize
    requires { (1 ≤ i) × (i ≤ code.k) }
    ensures { (result ≡ data_node code.family code.k i) × (1 ≤ result) × (result ≤ node_count code.family code.k) }
{
    code.node_of(base::power(i - 1))
}

// The lowest data block whose node is missing, if one is.
pub fn missing_block(code: Code, marks: &[bool; 256]) -> Option<usize>
    ensures { result ≡ numbered (missing_block code.family code.k marks.now) }
{
    for i in 1..code.k + 1 {
        let j = data_node(code, i);
        if !marks[j] {
            return Some(i);
        }
    }
    None
}

// The object becomes the k data blocks of the nodes buffer.
pub fn copy_data_blocks(code: Code, len: usize, nodes: &[u8], object: &mut [u8])
    requires { (length nodes.now ≡ node_count code.family code.k * len) × (length object.old ≡ code.k * len) }
    ensures { object.new ≡ data_blocks code.family code.k len nodes.now code.k }
{
    for i in 1..code.k + 1 {
        let j = data_node(code, i);
        blocks::copy_between(len, nodes, j, object, i);
    }
}
