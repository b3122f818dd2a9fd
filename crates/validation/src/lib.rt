// A plan made elsewhere, checked step by step against plain marks. A step's four bytes are a part of the plan; an array of them would be a copy.
#![tactic(auto)]

ghost use Rattle.std.specs.Prelude.{◌≡◌, true, false, ◌+◌, ◌*◌, ◌/◌, ◌≤◌, length, drop, set};
ghost use Rattle.families.specs.Families.{node_count};
ghost use Rattle.lists.specs.Lists.{some_outside};
ghost use Rattle.planning.specs.Made.{steps_in, step_of_bytes};
ghost use Rattle.planning.specs.Plan.{once};
ghost use Rattle.validation.specs.Good.{follows};
ghost use Rattle.validation.specs.Inner.{serves, good_by, free_in, validated_of};

use families::{Code, Columns};

// The number of a plan's first bad step, from 1, if it has one; and the marks once the steps before it are made.
#[derive(Clone, Copy, Debug, PartialEq, Eq)]
pub struct Validated {
    pub bad: Option<usize>,
    pub live: [bool; 256],
}

// Whether a round may follow the one of the step before: rounds begin at 1, never fall and rise by at most 1.
fn round_follows(last: usize, round: usize) -> bool
    ensures { result ≡ follows last round }
{
    1 <= round && last <= round && round - last < 2
}

// Whether a step's pair may serve it: the smaller stands before the larger, the node is missing, and the pair is related to it and `free`, as
// the nodes that may be read in its round are. The step is its four bytes.
fn pair_serves(columns: &Columns, live: &[bool; 256], free: &[bool; 256], step: &[u8]) -> bool
    requires { (length step.now ≡ 4) × (some_outside (node_count columns.now.code.family columns.now.code.k) (drop 1 step.now) ≡ false) }
    ensures { result ≡ serves columns.now.code.family columns.now.code.k live.now free.now (step_of_bytes step.now) }
{
    let node = usize::from(step[1]);
    let smaller = usize::from(step[2]);
    let larger = usize::from(step[3]);
    smaller < larger
        && !live[node]
        && columns.related(smaller, larger, node)
        && free[smaller]
        && free[larger]
}

// Whether a step may come next: `n` is the number of nodes, `last` is the round of the step before, and `live` are the marks now.
fn is_good(
    columns: &Columns,
    n: usize,
    last: usize,
    live: &[bool; 256],
    free: &[bool; 256],
    step: &[u8],
) -> bool
    requires { (length step.now ≡ 4) × (n ≡ node_count columns.now.code.family columns.now.code.k) }
    ensures { result ≡ good_by columns.now.code.family columns.now.code.k last live.now free.now (step_of_bytes step.now) }
{
    round_follows(last, usize::from(step[0]))
        && !lists::some_outside(n, &step[1..])
        && pair_serves(columns, live, free, step)
}

// A round begins where a step's round is another than that of the step before: every live node may be read.
fn enter_round(last: usize, round: usize, live: &[bool; 256], free: &mut [bool; 256])
    ensures { free.new ≡ free_in last round live.now free.old }
{
    if round != last {
        *free = *live;
    }
}

// A step is made on the marks: its node is live, and its pair is read.
fn mark_step(step: &[u8], live: &mut [bool; 256], free: &mut [bool; 256])
    requires { length step.now ≡ 4 }
    ensures live_after { live.new ≡ set live.old (step_of_bytes step.now).node true }
    ensures free_after { free.new ≡ once free.old (step_of_bytes step.now) }
{
    live[usize::from(step[1])] = true;
    free[usize::from(step[2])] = false;
    free[usize::from(step[3])] = false;
}

// A plan checked from the marks, up to its first bad step. A step is taken by its place, which tells the proof which step it is; of
// `chunks_exact(4)` the proof would have to say first what the iterator has left.
pub fn validate(code: Code, marks: [bool; 256], plan: &[u8]) -> Validated
    ensures { result ≡ validated_of code.family code.k marks (steps_in plan.now (length plan.now / 4)) }
{
    let columns = Columns::new(code);
    let mut live = marks;
    let mut free = marks;
    let mut last: usize = 0;
    let n = code.node_count();
    for i in 0..plan.len() / 4 {
        let step = &plan[4 * i..4 * i + 4];
        let round = usize::from(step[0]);
        enter_round(last, round, &live, &mut free);
        if !is_good(&columns, n, last, &live, &free, step) {
            return Validated {
                bad: Some(i + 1),
                live,
            };
        }
        mark_step(step, &mut live, &mut free);
        last = round;
    }
    Validated { bad: None, live }
}
