// Weight-two: a node has two of the numbers 0 to k. How many missing nodes have each number tells how many have a third node with a node:
// those with one of its two numbers and not the other.
ghost use Rattle.std.specs.Prelude.{◌≡◌, false, ◌≤◌, ◌<◌, length};
ghost use Rattle.families.specs.Families.{IsNode, node_count};
ghost use Rattle.families.specs.declared.Family.TheVariants.{WeightTwo};
ghost use Rattle.lists.specs.Lists.{missing_nodes, some_outside};
ghost use Rattle.pairing.specs.Inner.{with_third, first_end, second_end, degrees_of};

use families::{Columns, Family};

// The number of a column's lowest bit.
fn first_end(column: usize) -> usize
    ensures { result ≡ first_end column }
{
    base::lowest_bit(column) + 1
}

// The number of the lowest bit that is left without that one; 0 where none is left: a data block's node has 0 and its block's number.
fn second_end(column: usize) -> usize
    requires { 0 < column }
    ensures { result ≡ second_end column }
{
    let rest = column - base::power(base::lowest_bit(column));
    if rest == 0 {
        return 0;
    }
    base::lowest_bit(rest) + 1
}

// How many nodes of a list have each number. As k is at most 22, 32 counts are enough.
fn count_ends(columns: &Columns, list: &[u8]) -> [u16; 32]
    requires family { columns.now.code.family ≡ WeightTwo }
    requires list_value { (some_outside (node_count columns.now.code.family columns.now.code.k) list.now ≡ false) × (length list.now ≤ 255) }
    ensures { result ≡ degrees_of columns.now.code.family columns.now.code.k list.now }
{
    let mut table = [0u16; 32];
    for node in list {
        let column = columns.of(usize::from(*node));
        counts::count_one(&mut table, first_end(column));
        counts::count_one(&mut table, second_end(column));
    }
    table
}

// The same; zeros for another family.
pub fn degrees(columns: &Columns, list: &[u8]) -> [u16; 32]
    requires { (some_outside (node_count columns.now.code.family columns.now.code.k) list.now ≡ false) × (length list.now ≤ 255) }
    ensures { result ≡ degrees_of columns.now.code.family columns.now.code.k list.now }
{
    match columns.code.family {
        Family::Simplex => [0u16; 32],
        Family::WeightTwo => count_ends(columns, list),
        Family::Tetrahedron => [0u16; 32],
    }
}

// How many missing nodes have a third node with j. A missing j has both numbers, and no third node with itself.
pub fn by_degrees(columns: &Columns, marks: &[bool; 256], degrees: &[u16; 32], j: usize) -> usize
    requires family { (columns.now.code.family ≡ WeightTwo) × IsNode columns.now.code.family columns.now.code.k j }
    requires degrees_value { degrees.now ≡ degrees_of columns.now.code.family columns.now.code.k (missing_nodes marks.now (node_count columns.now.code.family columns.now.code.k)) }
    ensures { result ≡ with_third columns.now.code.family columns.now.code.k (missing_nodes marks.now (node_count columns.now.code.family columns.now.code.k)) j }
{
    let column = columns.of(j);
    let first = usize::from(degrees[first_end(column)]);
    let second = usize::from(degrees[second_end(column)]);
    first + second - 2 * usize::from(!marks[j])
}
