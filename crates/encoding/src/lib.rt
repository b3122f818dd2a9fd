// Encoding: the nodes buffer from an object, by the generator matrix.
#![tactic(auto)]

ghost use Rattle.std.specs.Prelude.{◌≡◌, ◌*◌, IfOk, length};
ghost use Rattle.families.specs.Families.{node_count, column_of};
ghost use Rattle.blocks.specs.Blocks.{with_block};
ghost use Rattle.checks.specs.Checks.{first_met};
ghost use Rattle.checks.specs.Refusals.{number_in, IsCodeOf};
ghost use Rattle.encoding.specs.Matrix.{node_block, nodes_buffer};
ghost use Rattle.encoding.specs.Inner.{BeforeNode};
ghost use Rattle.encoding.specs.Encode.{encode_checks, encode_answer, encoded};

use checks::Refusal;
use families::{Code, Columns};

// The code, or the first check that is met.
fn code_of(
    family: usize,
    k: usize,
    len: usize,
    object_len: usize,
    nodes_len: usize,
) -> Result<Code, Refusal>
    ensures number { number_in result ≡ first_met (encode_checks family k len object_len nodes_len) }
    ensures code { IfOk result (IsCodeOf family k) }
{
    let code = checks::parameters(family, k, len)?;
    if object_len != k * len {
        return Err(Refusal::BufferLength);
    }
    let n = code.node_count();
    if nodes_len != n * len {
        return Err(Refusal::BufferLength);
    }
    Ok(code)
}

// Node j's block, from those of the nodes before it: a data block is copied, and any other node is the XOR of the data
// block of its column's lowest bit and the node of the bits above, both of which come before it.
fn encode_node(columns: &Columns, len: usize, object: &[u8], nodes: &mut [u8], j: usize)
    requires { BeforeNode columns.now.code.family columns.now.code.k len object.now nodes.old j }
    ensures { nodes.new ≡ with_block len nodes.old j (node_block columns.now.code.k len object.now (column_of columns.now.code.family columns.now.code.k j)) }
{
    let column = columns.of(j);
    let low = base::lowest_bit(column);
    let bit = base::power(low);
    let rest = column - bit;
    if rest == 0 {
        blocks::copy_between(len, object, low + 1, nodes, j);
        return;
    }
    let a = columns.code.node_of(bit);
    let b = columns.code.node_of(rest);
    blocks::xor_block(nodes, len, j, a, b);
}

// Every node's block, in the order of the nodes.
fn encode_nodes(code: Code, len: usize, object: &[u8], nodes: &mut [u8])
    requires { (length object.now ≡ code.k * len) × (length nodes.old ≡ node_count code.family code.k * len) }
    ensures { nodes.new ≡ nodes_buffer code.family code.k len object.now }
{
    let columns = Columns::new(code);
    for j in 1..code.node_count() + 1 {
        encode_node(&columns, len, object, nodes, j);
    }
}

// Encodes an object of k blocks of `len` bytes into the nodes buffer; a refusal writes nothing. Any number of a family is served or refused.
pub fn encode(
    family: usize,
    k: usize,
    len: usize,
    object: &[u8],
    nodes: &mut [u8],
) -> Result<(), Refusal>
    ensures value { number_in result ≡ encode_answer family k len object.now nodes.old }
    ensures nodes_after { nodes.new ≡ encoded family k len object.now nodes.old }
{
    let code = code_of(family, k, len, object.len(), nodes.len())?;
    encode_nodes(code, len, object, nodes);
    Ok(())
}
