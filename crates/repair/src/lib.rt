// Sessions: which nodes of an object are live, and what is done with them.
#![tactic(auto)]

mod boxed;
mod by_pairs;
mod live;
mod out;
mod pairs;
mod start;
mod step;

ghost use Rattle.std.specs.Prelude.{◌≡◌, replicate};

use checks::Refusal;

// A family, k and L, the steps made since the start, a mark for each node number, live or missing, and how often each was read by
// steps. It is plain data, with a family's number, as C hands it over: whatever a caller puts into one, an operation first checks that it
// is sound (`unsound`).
#[derive(Clone, Copy)]
pub struct Session {
    pub family: usize,
    pub k: usize,
    pub len: usize,
    pub steps: usize,
    pub live: [bool; 256],
    pub reads: [u16; 256],
}

// What an operation on a session gives, and the session that is handed back: the next one, or where the call is refused the one that was
// handed in. `?` would give the refusal alone, so that these operations match; a function of each for the result would say its contract
// twice.
#[derive(Clone, Copy)]
pub struct Answer<T> {
    pub result: Result<T, Refusal>,
    pub session: Session,
}

// What a plan or a run comes to: its steps, its rounds and the nodes left.
#[derive(Clone, Copy, Debug, PartialEq, Eq)]
pub struct Totals {
    pub steps: usize,
    pub rounds: usize,
    pub left: usize,
}

// Room for any plan: a step for each of 255 nodes, four bytes a step. A buffer of each size has its name; one function for all sizes would
// leave the number to its callers.
pub fn plan_room() -> [u8; 1020]
    ensures { result ≡ replicate 1020 0 }
{
    [0u8; 1020]
}
