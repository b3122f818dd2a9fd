// Weight-two: the nodes are the pairs a < b of the numbers 0 to k, by a and then b; a = 0 stands for no block, so the first
// k are the data blocks. Where a function needs k in its range a clause of its own says so: a type round one number would be no plainer.
ghost use Rattle.std.specs.Prelude.{◌≡◌, cond, eqb, ◌+◌, ◌^◌, ◌≤◌, ◌<◌};
ghost use Rattle.families.specs.Families.{KInRange, IsNode, pair_node, node_count, column_of, node_of};
ghost use Rattle.families.specs.Inner.{unit, column_table};
ghost use Rattle.families.specs.declared.Family.TheVariants.{WeightTwo};

// A pair, of which the first number is the smaller.
#[derive(Clone, Copy)]
struct Pair {
    smaller: usize,
    larger: usize,
}

// How many pairs there are.
pub fn count(k: usize) -> usize
    requires { k ≤ 22 }
    ensures { result ≡ node_count WeightTwo k }
{
    k * (k + 1) / 2
}

// The column of data block i alone, 2^i halved: 2^(i - 1), and 0 for i = 0, which is no block's, as by the definition `unit`.
fn unit_column(i: usize) -> usize
    requires { i ≤ 22 }
    ensures { result ≡ unit i }
{
    base::power(i) >> 1
}

// How many rows end before a place. A row is the pairs with one smaller number; rows and places are counted back from the last node,
// places from 0. So the rows have 1, 2, 3 and so on pairs for every k, r rows have r(r + 1)/2, and r is about √(2 place), which is √x/√2
// for x = 4 place. A step of Heron's method from 2^half gives √x as (x/2^half + 2^half)/2, never too small, and 45/64 is a little less
// than 1/√2: the estimate is right or one too many, at every place, and the comparison is subtracted as 0 or 1. x is one more than
// 4 place because the leading zeros of 0 take more instructions.
fn rows_before(place: usize) -> usize
    requires { place ≤ 252 }
    ensures { (node_count WeightTwo result ≤ place) × (place < node_count WeightTwo (result + 1)) }
{
    let x = 4 * place + 1;
    let half = base::bit_length(x) / 2;
    let estimate = 45 * ((x >> half) + base::power(half)) / 128;
    estimate - usize::from(place < count(estimate))
}

// Node j's column. Counted back from the last node, rows from 1 and places in a row from 0, the pair at place t of row r is of the numbers
// k - r and k - t. Number i's column is data block k's shifted right by k - i, which leaves 0 for number 0, no block.
pub fn column(k: usize, j: usize) -> usize
    requires kin_range { KInRange WeightTwo k }
    requires node { IsNode WeightTwo k j }
    ensures { result ≡ column_of WeightTwo k j }
{
    let place = count(k) - j;
    let rows = rows_before(place);
    let last_block = base::power(k - 1);
    (last_block >> (rows + 1)) + (last_block >> (place - count(rows)))
}

// The number of the pair i < j.
fn pair_node(k: usize, i: usize, j: usize) -> usize
    requires { (1 ≤ i) × (i < j) × (j ≤ k) × (k ≤ 22) }
    ensures { result ≡ pair_node k i j }
{
    k + (i - 1) * (2 * k - i) / 2 + (j - i)
}

// The node with this column, which is below 2^k: its lowest bit and what is left are each a data block's, or the column is no
// node's, and the definition gives 0.
pub fn node_below(k: usize, column: usize) -> usize
    requires { KInRange WeightTwo k × (column < 2 ^ k) }
    ensures { result ≡ node_of WeightTwo k column }
{
    if column == 0 {
        return 0;
    }
    let low = base::lowest_bit(column);
    let rest = base::without_lowest(column);
    if rest == 0 {
        return low + 1;
    }
    let high = base::lowest_bit(rest);
    if base::without_lowest(rest) != 0 {
        return 0;
    }
    pair_node(k, low + 1, high + 1)
}

// The node with this column; 0 where there is none, as by the definition.
pub fn node_of(k: usize, column: usize) -> usize
    requires { KInRange WeightTwo k }
    ensures { result ≡ node_of WeightTwo k column }
{
    if base::power(k) <= column {
        return 0;
    }
    node_below(k, column)
}

// The pair after this one: one to the right in its row, or the first of the next row.
fn next_pair(k: usize, pair: Pair) -> Pair
    requires { (pair.smaller ≤ 22) × (pair.larger ≤ 22) }
    ensures { result ≡ cond (eqb pair.larger k) (record { smaller = pair.smaller + 1; larger = pair.smaller + 2 }) (record { smaller = pair.smaller; larger = pair.larger + 1 }) }
{
    if pair.larger == k {
        return Pair {
            smaller: pair.smaller + 1,
            larger: pair.smaller + 2,
        };
    }
    Pair {
        larger: pair.larger + 1,
        ..pair
    }
}

// All columns by node number, going from each pair to the next. `as`: a column is below 2^22; `try_from` would add a case with no answer.
pub fn columns(k: usize) -> [u32; 256]
    requires { KInRange WeightTwo k }
    ensures { result ≡ column_table WeightTwo k }
{
    let n = count(k);
    let mut table = [0u32; 256];
    let mut pair = Pair {
        smaller: 0,
        larger: 1,
    };
    for place in 0..n {
        table[place + 1] = (unit_column(pair.smaller) + unit_column(pair.larger)) as u32;
        pair = next_pair(k, pair);
    }
    table
}
