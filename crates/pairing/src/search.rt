// The search for a pair.
ghost use Rattle.std.specs.Prelude.{◌≡◌, ◌≤◌};
ghost use Rattle.families.specs.Families.{IsNode, node_count};
ghost use Rattle.pairing.specs.Pairs.{pairs_of};
ghost use Rattle.pairing.specs.Inner.{next_found, found_in};

use crate::count::count_alone;
use crate::partner::live_partner;
use crate::{Found, NodeSet, Pairs};
use families::{Code, Columns};

// The first node above `after` whose count is not 0 and that has a pair of free nodes, those that may be read: with its least such pair,
// and its count. First members go upward.
pub fn find_next(free: NodeSet, counts: &[u16; 256], after: usize) -> Option<Found>
    requires { after ≤ node_count free.columns.now.code.family free.columns.now.code.k }
    ensures { result ≡ found_in free.entry.columns.now.code.family free.entry.columns.now.code.k free.entry.marks.now counts.now (next_found free.entry.columns.now.code.family free.entry.columns.now.code.k free.entry.marks.now counts.now after) }
{
    let n = free.columns.code.node_count();
    for node in after + 1..n + 1 {
        let count = usize::from(counts[node]);
        if count == 0 {
            continue;
        }
        for &a in free.list {
            let smaller = usize::from(a);
            let larger = live_partner(free.columns, free.marks, node, smaller);
            if larger != 0 {
                let pairs = Pairs {
                    smaller,
                    larger,
                    count,
                };
                return Some(Found { node, pairs });
            }
        }
    }
    None
}

// The search by itself, for one node, live or missing: the walk in which that node alone is counted, and every live node is free.
pub fn pairs_of(code: Code, marks: [bool; 256], j: usize) -> Pairs
    requires { IsNode code.family code.k j }
    ensures { result ≡ pairs_of code.family code.k marks j }
{
    let n = code.node_count();
    let count = lists::count_live(&marks, n);
    let all = lists::list_live(&marks, n);
    let columns = Columns::new(code);
    let live = NodeSet {
        columns: &columns,
        marks: &marks,
        list: &all[..count],
    };
    let counts = count_alone(live, j);
    match find_next(live, &counts, j - 1) {
        Some(found) => found.pairs,
        None => Pairs {
            smaller: 0,
            larger: 0,
            count: 0,
        },
    }
}
