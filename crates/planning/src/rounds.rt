// Rounds, and the plan.
ghost use Rattle.std.specs.Prelude.{◌≡◌, true, false, [], ◌∷◌, ◌++◌, ◌+◌, ◌-◌, ◌*◌, ◌≤◌, ◌<◌, length, set, take, drop};
ghost use borrow.Rule.Slice.PartMut.{put_mid};
ghost use Rattle.families.specs.Families.{node_count};
ghost use Rattle.lists.specs.Lists.{is_live, live_nodes};
ghost use Rattle.planning.specs.Plan.{once, round_steps, marks_after, plan_of, step_bytes};
ghost use Rattle.planning.specs.Inner.{planned_of};

use crate::Planned;
use families::{Code, Columns};
use pairing::count::count_missing;
use pairing::search::find_next;
use pairing::{Found, NodeSet};

// A step as its four bytes. `as`: they fit by the clause; `try_from` would add a case with no answer.
fn put_step(out: &mut [u8], round: usize, found: Found)
    requires out_len { length out.old ≡ 4 }
    requires round_bound { (round < 256) × (found.node < 256) × (found.pairs.smaller < 256) × (found.pairs.larger < 256) }
    ensures { out.new ≡ round ∷ found.node ∷ found.pairs.smaller ∷ found.pairs.larger ∷ [] }
{
    let pairs = found.pairs;
    out.copy_from_slice(&[
        round as u8,
        found.node as u8,
        pairs.smaller as u8,
        pairs.larger as u8,
    ]);
}

// A node is read: it is free no more, and goes from the list of the free ones, where as many stand before it as are free below it.
fn read_node(list: &mut [u8], free: &mut [bool; 256], n: usize, node: usize)
    requires le_node { (1 ≤ node) × (node ≤ n) × (n ≤ 255) × (is_live free.old node ≡ true) }
    requires list_value { list.old ≡ live_nodes free.old n }
    ensures list_after { list.new ≡ live_nodes (set free.old node false) n ++ drop (length list.old - 1) list.old }
    ensures free_after { free.new ≡ set free.old node false }
{
    let place = lists::count_live(free, node - 1);
    lists::remove(list, place);
    free[node] = false;
}

// A pair is read: the nodes that are still free stand in all of the list but its last two places.
fn read_pair(list: &mut [u8], free: &mut [bool; 256], n: usize, smaller: usize, larger: usize)
    requires le_smaller { (1 ≤ smaller) × (smaller < larger) × (larger ≤ n) × (n ≤ 255) }
    requires smaller_value { (is_live free.old smaller ≡ true) × (is_live free.old larger ≡ true) × (list.old ≡ live_nodes free.old n) }
    ensures list_after { take (length list.old - 2) list.new ≡ live_nodes (set (set free.old smaller false) larger false) n }
    ensures free_after { free.new ≡ set (set free.old smaller false) larger false }
{
    let rest = list.len() - 1;
    read_node(list, free, n, smaller);
    read_node(&mut list[..rest], free, n, larger);
}

// The steps of a round, put into `out` from place `from` on, and their nodes live in `next`; `marks` are those when the round
// begins. Gives how many they are. A node is free until it is read: `list` has the free ones. With every missing node repaired there is
// nothing more to read.
fn plan_round(
    columns: &Columns,
    marks: &[bool; 256],
    round: usize,
    out: &mut [u8],
    from: usize,
    next: &mut [bool; 256],
) -> usize
    requires round_bound { round + length (round_steps once columns.now.code.family columns.now.code.k marks.now round) ≤ 256 }
    requires round_in_bounds { from + 4 * length (round_steps once columns.now.code.family columns.now.code.k marks.now round) ≤ length out.old }
    ensures value { result ≡ length (round_steps once columns.now.code.family columns.now.code.k marks.now round) }
    ensures out_after { out.new ≡ put_mid from (4 * length (round_steps once columns.now.code.family columns.now.code.k marks.now round)) out.old (step_bytes (round_steps once columns.now.code.family columns.now.code.k marks.now round)) }
    ensures next_after { next.new ≡ marks_after next.old (round_steps once columns.now.code.family columns.now.code.k marks.now round) }
{
    let n = columns.code.node_count();
    let mut count = lists::count_live(marks, n);
    if count == n || count < 2 {
        return 0;
    }
    let missing = n - count;
    let mut list = lists::list_live(marks, n);
    let mut free = *marks;
    let counts = count_missing(NodeSet {
        columns,
        marks,
        list: &list[..count],
    });
    let mut steps: usize = 0;
    let mut node: usize = 0;
    // Each turn reads two of the nodes that are still free, so this is no count of turns.
    while 1 < count {
        let readable = NodeSet {
            columns,
            marks: &free,
            list: &list[..count],
        };
        let found = match find_next(readable, &counts, node) {
            Some(found) => found,
            None => return steps,
        };
        let at = from + 4 * steps;
        put_step(&mut out[at..at + 4], round, found);
        node = found.node;
        next[node] = true;
        steps += 1;
        if steps == missing {
            return steps;
        }
        let pair = found.pairs;
        read_pair(&mut list[..count], &mut free, n, pair.smaller, pair.larger);
        count -= 2;
    }
    steps
}

// The plan from the marks, put into `out`, which has room for a step for each node.
pub fn make_plan(code: Code, live: [bool; 256], out: &mut [u8]) -> Planned
    requires { 4 * node_count code.family code.k ≤ length out.old }
    ensures value { result ≡ planned_of code.family code.k live }
    ensures out_after { out.new ≡ step_bytes (plan_of code.family code.k live) ++ drop (4 * length (plan_of code.family code.k live)) out.old }
{
    let n = code.node_count();
    let columns = Columns::new(code);
    let mut marks = live;
    let mut steps: usize = 0;
    let mut rounds: usize = 0;
    // How many rounds there are is known only once one makes nothing.
    loop {
        let mut next = marks;
        let made = plan_round(&columns, &marks, rounds + 1, out, 4 * steps, &mut next);
        if made == 0 {
            break;
        }
        marks = next;
        steps += made;
        rounds += 1;
    }
    let live_count = lists::count_live(&marks, n);
    Planned {
        steps,
        rounds,
        left: n - live_count,
        live: marks,
    }
}
