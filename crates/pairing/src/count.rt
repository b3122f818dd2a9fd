// How many related pairs of a node are both live. Of the live and the missing nodes, the fewer are gone through two by two, and each two
// count for the node that is related to both. Where these are the missing ones, the node has as many pairs as where every node is live,
// less one for each missing node of a pair, and one more for each pair that was so taken off twice.
// The missing nodes go beside the columns and marks as a list with a clause of its own: `Tally::of` and `count_listed` take the live nodes
// too, and a struct of the missing ones would need a clause there that both have the same marks.
ghost use Rattle.std.specs.Prelude.{◌≡◌, false, [], ◌∷◌, map, ◌+◌, ◌≤◌, length};
ghost use Rattle.families.specs.Families.{IsNode, node_count};
ghost use Rattle.lists.specs.Lists.{missing_nodes, some_outside};
ghost use Rattle.counts.specs.Counts.{no_counts, count_all, sum_of};
ghost use Rattle.pairing.specs.Pairs.{pair_count, most_pairs};
ghost use Rattle.families.specs.Inner.{third_node};
ghost use Rattle.pairing.specs.Inner.{thirds, with_third, degrees_of, count_each, live_ends, Tallies};

use crate::NodeSet;
use crate::ends::{by_degrees, degrees};
use crate::partner::live_partner;
use families::{Code, Columns, Family};

// The pairs within the live nodes, by the node that is related to both, or those within the missing ones, with how many of these have
// each number of weight-two.
#[derive(Clone, Copy)]
enum Tally {
    Live([u16; 256]),
    Missing([u16; 256], [u16; 32]),
}

// One more for each node related to node a and one of a list.
fn count_thirds(columns: &Columns, a: usize, list: &[u8], table: &mut [u16; 256])
    requires first { IsNode columns.now.code.family columns.now.code.k a }
    requires list_value { some_outside (node_count columns.now.code.family columns.now.code.k) list.now ≡ false }
    requires list_bound { sum_of table.old + length list.now ≤ 65535 }
    ensures { table.new ≡ count_all table.old (map (third_node columns.now.code.family columns.now.code.k a) list.now) }
{
    for b in list {
        counts::count_one(table, columns.third_node(a, usize::from(*b)));
    }
}

// Of each node how many pairs of a list are related to it.
fn pairs_within(columns: &Columns, list: &[u8]) -> [u16; 256]
    requires { (some_outside (node_count columns.now.code.family columns.now.code.k) list.now ≡ false) × (length list.now ≤ 255) }
    ensures { result ≡ count_all no_counts (thirds columns.now.code.family columns.now.code.k list.now) }
{
    let mut table = [0u16; 256];
    for (i, a) in list.iter().enumerate() {
        count_thirds(columns, usize::from(*a), &list[i + 1..], &mut table);
    }
    table
}

// How many of a list have a third node with j, each asked by itself: for the tetrahedron alone, which has 14 nodes. In a `filter` what
// `third_node` requires would be asked of the closure, for every node of the list.
fn with_third(columns: &Columns, list: &[u8], j: usize) -> usize
    requires node { IsNode columns.now.code.family columns.now.code.k j }
    requires list_value { some_outside (node_count columns.now.code.family columns.now.code.k) list.now ≡ false }
    ensures { result ≡ with_third columns.now.code.family columns.now.code.k list.now j }
{
    let mut count: usize = 0;
    for a in list {
        let third = columns.third_node(j, usize::from(*a));
        count += usize::from(third != 0);
    }
    count
}

// How many missing nodes have a third node with j: in simplex all but j itself, in weight-two by how many have each of its two numbers.
fn missing_with_third(
    columns: &Columns,
    missing: &[u8],
    marks: &[bool; 256],
    degrees: &[u16; 32],
    j: usize,
) -> usize
    requires node { IsNode columns.now.code.family columns.now.code.k j }
    requires missing_value { missing.now ≡ missing_nodes marks.now (node_count columns.now.code.family columns.now.code.k) }
    requires degrees_value { degrees.now ≡ degrees_of columns.now.code.family columns.now.code.k missing.now }
    ensures { result ≡ with_third columns.now.code.family columns.now.code.k missing.now j }
{
    match columns.code.family {
        Family::Simplex => missing.len() - usize::from(!marks[j]),
        Family::WeightTwo => by_degrees(columns, marks, degrees, j),
        Family::Tetrahedron => with_third(columns, missing, j),
    }
}

// How many pairs a node has where every node is live.
fn most_pairs(code: Code) -> usize
    ensures { result ≡ most_pairs code.family code.k }
{
    match code.family {
        Family::Simplex => (code.node_count() - 1) / 2,
        Family::WeightTwo => code.k - 1,
        Family::Tetrahedron => 6,
    }
}

impl Tally {
    // The one that is the quicker to make.
    fn of(set: NodeSet, missing: &[u8]) -> Tally
        requires { missing.now ≡ missing_nodes set.marks.now (node_count set.columns.now.code.family set.columns.now.code.k) }
        ensures { Tallies set.entry.columns.now.code.family set.entry.columns.now.code.k set.entry.marks.now result }
    {
        if set.list.len() <= missing.len() {
            return Tally::Live(pairs_within(set.columns, set.list));
        }
        let within = pairs_within(set.columns, missing);
        Tally::Missing(within, degrees(set.columns, missing))
    }

    // The pairs of node j.
    fn pairs(&self, columns: &Columns, missing: &[u8], marks: &[bool; 256], j: usize) -> usize
        requires node { IsNode columns.now.code.family columns.now.code.k j }
        requires missing_value { missing.now ≡ missing_nodes marks.now (node_count columns.now.code.family columns.now.code.k) }
        requires tallies { Tallies columns.now.code.family columns.now.code.k marks.now self.now }
        ensures { result ≡ pair_count columns.now.code.family columns.now.code.k marks.now j }
    {
        match self {
            Tally::Live(table) => usize::from(table[j]),
            Tally::Missing(table, degrees) => {
                let within = usize::from(table[j]);
                most_pairs(columns.code) + within
                    - missing_with_third(columns, missing, marks, degrees, j)
            }
        }
    }
}

// Of each missing node how many of its pairs are both live, and 0 for every other number; the missing nodes are listed. `as`: it fits, as a node
// has at most 127 pairs; `try_from` would add a case with no answer.
fn count_listed(set: NodeSet, missing: &[u8]) -> [u16; 256]
    requires { missing.now ≡ missing_nodes set.marks.now (node_count set.columns.now.code.family set.columns.now.code.k) }
    ensures { result ≡ count_each set.entry.columns.now.code.family set.entry.columns.now.code.k set.entry.marks.now no_counts missing.now }
{
    let tally = Tally::of(set, missing);
    let mut counts = [0u16; 256];
    for node in missing {
        let j = usize::from(*node);
        counts[j] = tally.pairs(set.columns, missing, set.marks, j) as u16;
    }
    counts
}

// Of each missing node how many of its pairs are both live, and 0 for every other number.
pub fn count_missing(set: NodeSet) -> [u16; 256]
    ensures { result ≡ count_each set.entry.columns.now.code.family set.entry.columns.now.code.k set.entry.marks.now no_counts (missing_nodes set.entry.marks.now (node_count set.entry.columns.now.code.family set.entry.columns.now.code.k)) }
{
    let n = set.columns.code.node_count();
    let lost = lists::list_missing(set.marks, n);
    count_listed(set, &lost[..n - set.list.len()])
}

// How many live nodes have a live third node with j: each of the two nodes of a pair is one. It is a `for` as in `with_third`.
fn live_ends(set: NodeSet, j: usize) -> usize
    requires { IsNode set.columns.now.code.family set.columns.now.code.k j }
    ensures { result ≡ live_ends set.entry.columns.now.code.family set.entry.columns.now.code.k set.entry.marks.now set.entry.list.now j }
{
    let mut count: usize = 0;
    for a in set.list {
        let b = live_partner(set.columns, set.marks, j, usize::from(*a));
        count += usize::from(b != 0);
    }
    count
}

// Of node j, live or missing, how many of its pairs are both live, and 0 for every other number: one pass over the live nodes, where the
// pairs within a list would count every node. `as`: half of at most 255 fits; `try_from` would add a case with no answer.
pub fn count_alone(set: NodeSet, j: usize) -> [u16; 256]
    requires { IsNode set.columns.now.code.family set.columns.now.code.k j }
    ensures { result ≡ count_each set.entry.columns.now.code.family set.entry.columns.now.code.k set.entry.marks.now no_counts (j ∷ []) }
{
    let ends = live_ends(set, j);
    let mut counts = [0u16; 256];
    counts[j] = (ends / 2) as u16;
    counts
}
