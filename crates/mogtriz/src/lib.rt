// The C interface, include/mogtriz.h: numbers come in as `size_t`, and one that is out of range is refused, never cut.
#![tactic(auto)]

pub mod conversions;
pub mod repairs;
pub mod sessions;

ghost use Rattle.std.specs.Prelude.{◌≡◌};
ghost use Rattle.encoding.specs.Encode.{encode_answer, encoded};
ghost use Rattle.interleaving.specs.Interleaved.{interleaved, deinterleaved, interleave_answer, out_moved};
ghost use Rattle.mogtriz.specs.Exports.{interface_version, node_count_or0, is_node, column_or0, node_or0, related_or0};

// The version of this interface, MOGTRIZ_VERSION of the header that it was made with.
#[unsafe(no_mangle)]
pub extern "C" fn mogtriz_version() -> usize
    ensures { result ≡ interface_version }
{
    6
}

// Encodes: 0, or the refusal's number, and then nothing is written.
#[unsafe(no_mangle)]
pub extern "C" fn mogtriz_encode(
    family: usize,
    k: usize,
    len: usize,
    object: &[u8],
    nodes: &mut [u8],
) -> u8
    ensures value { result ≡ encode_answer family k len object.now nodes.old }
    ensures nodes_after { nodes.new ≡ encoded family k len object.now nodes.old }
{
    checks::number(encoding::encode(family, k, len, object, nodes))
}

// The bytes of an object spread over its blocks: 0, or the refusal's number, and then nothing is written.
#[unsafe(no_mangle)]
pub extern "C" fn mogtriz_interleave(
    family: usize,
    k: usize,
    len: usize,
    object: &[u8],
    out: &mut [u8],
) -> u8
    ensures value { result ≡ interleave_answer family k len object.now out.old }
    ensures out_after { out.new ≡ out_moved interleaved family k len object.now out.old }
{
    checks::number(interleaving::interleave(family, k, len, object, out))
}

// The inverse: the bytes of the object put back.
#[unsafe(no_mangle)]
pub extern "C" fn mogtriz_deinterleave(
    family: usize,
    k: usize,
    len: usize,
    object: &[u8],
    out: &mut [u8],
) -> u8
    ensures value { result ≡ interleave_answer family k len object.now out.old }
    ensures out_after { out.new ≡ out_moved deinterleaved family k len object.now out.old }
{
    checks::number(interleaving::deinterleave(family, k, len, object, out))
}

// n, the number of nodes; 0 where the family or k is out of range.
#[unsafe(no_mangle)]
pub extern "C" fn mogtriz_node_count(family: usize, k: usize) -> usize
    ensures { result ≡ node_count_or0 family k }
{
    match checks::parameters(family, k, 1) {
        Ok(code) => code.node_count(),
        Err(_) => 0,
    }
}

// Whether a number is a node's, of any family and k that C hands over, in range or not.
fn is_node(family: usize, k: usize, j: usize) -> bool
    ensures { result ≡ is_node family k j }
{
    1 <= j && j <= mogtriz_node_count(family, k)
}

// The node's column; 0 where there is no such node.
#[unsafe(no_mangle)]
pub extern "C" fn mogtriz_column(family: usize, k: usize, node: usize) -> usize
    ensures { result ≡ column_or0 family k node }
{
    match checks::parameters(family, k, 1) {
        Ok(code) if is_node(family, k, node) => code.column(node),
        _ => 0,
    }
}

// The node with this column; 0 where there is no such node.
#[unsafe(no_mangle)]
pub extern "C" fn mogtriz_node_of_column(family: usize, k: usize, column: usize) -> usize
    ensures { result ≡ node_or0 family k column }
{
    match checks::parameters(family, k, 1) {
        Ok(code) => code.node_of(column),
        Err(_) => 0,
    }
}

// 1 where the three numbers are nodes and related, else 0.
#[unsafe(no_mangle)]
pub extern "C" fn mogtriz_related(family: usize, k: usize, a: usize, b: usize, c: usize) -> u8
    ensures { result ≡ related_or0 family k a b c }
{
    match checks::parameters(family, k, 1) {
        Ok(code) if is_node(family, k, a) && is_node(family, k, b) && is_node(family, k, c) => {
            u8::from(code.related(a, b, c))
        }
        _ => 0,
    }
}
