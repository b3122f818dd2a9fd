// Node lists, a byte a node, and marks, a bool for each number from 0 to 255.
#![tactic(auto)]

ghost use Rattle.std.specs.Prelude.{◌≡◌, true, ◌++◌, ◌-◌, ◌≤◌, ◌<◌, length, drop, replicate};
ghost use Rattle.checks.specs.Checks.{first_met};
ghost use Rattle.checks.specs.Refusals.{number_in};
ghost use Rattle.lists.specs.Inner.{turned_round, without_place};
ghost use Rattle.lists.specs.Lists.{some_outside, rises, list_checks, place_in, none_live, set_live, some_missing, live_outside, live_nodes, missing_nodes};

use checks::Refusal;

// Whether a node number of the list is 0 or above n.
pub fn some_outside(n: usize, list: &[u8]) -> bool
    ensures { result ≡ some_outside n list.now }
{
    list.iter().any(|&j| j < 1 || n < usize::from(j))
}

// Whether the list strictly rises. It is gone through to its end, and not left at the first fall as `all` would, so that the compiler can
// compare many numbers at a time.
pub fn is_rising(list: &[u8]) -> bool
    ensures { result ≡ rises list.now }
{
    let mut rising = true;
    for i in 1..list.len() {
        rising &= list[i - 1] < list[i];
    }
    rising
}

// Whether a node number of a rising list is 0 or above n: its first number is the least of them, and its last the most.
fn ends_outside(n: usize, list: &[u8]) -> bool
    requires { rises list.now ≡ true }
    ensures { result ≡ some_outside n list.now }
{
    !list.is_empty() && (list[0] < 1 || n < usize::from(list[list.len() - 1]))
}

// Whether a node number of the list is 0 or above n: only a list that does not rise is gone through for it.
fn outside_by_order(n: usize, list: &[u8], rising: bool) -> bool
    requires { rises list.now ≡ rising }
    ensures { result ≡ some_outside n list.now }
{
    if rising {
        ends_outside(n, list)
    } else {
        some_outside(n, list)
    }
}

// Refusal 4 or 5 of a node list, in this order, if one is due.
pub fn check(n: usize, list: &[u8]) -> Result<(), Refusal>
    ensures { number_in result ≡ first_met (list_checks n list.now) }
{
    let rising = is_rising(list);
    if outside_by_order(n, list, rising) {
        return Err(Refusal::UnknownNode);
    }
    if !rising {
        return Err(Refusal::ListNotRising);
    }
    Ok(())
}

// The place of a node in a list, from 0, or the list's length where it is not there: no `Option`, as by the definition `place_in`, by which the
// claims on boxes speak of places.
pub fn place_in(list: &[u8], j: usize) -> usize
    ensures { result ≡ place_in list.now j }
{
    match list.iter().position(|&i| usize::from(i) == j) {
        Some(place) => place,
        None => list.len(),
    }
}

// Every mark missing, and then those of a list set live.
pub fn marks_of_list(list: &[u8]) -> [bool; 256]
    ensures { result ≡ set_live none_live list.now }
{
    let mut marks = [false; 256];
    for &j in list {
        marks[usize::from(j)] = true;
    }
    marks
}

// Whether a node of the list is missing.
pub fn some_missing(marks: &[bool; 256], list: &[u8]) -> bool
    ensures { result ≡ some_missing marks.now list.now }
{
    list.iter().any(|&j| !marks[usize::from(j)])
}

// Whether a mark for 0 or above n is live.
pub fn live_outside(n: usize, marks: &[bool; 256]) -> bool
    requires { n ≤ 255 }
    ensures { result ≡ live_outside n marks.now }
{
    marks[0] || marks[n + 1..].iter().any(|&live| live)
}

// How many of the nodes 1 to n are live. A byte holds the count, so that the compiler can add many marks at a time; `filter` and `count` would
// count in a `usize`.
pub fn count_live(marks: &[bool; 256], n: usize) -> usize
    requires { n ≤ 255 }
    ensures { result ≡ length (live_nodes marks.now n) }
{
    let mut count: u8 = 0;
    for &live in &marks[1..=n] {
        count += u8::from(live);
    }
    usize::from(count)
}

// The marks turned round: missing for live, and live for missing. Tried: `map`, whose proof has to show of every call that it may be made.
fn turned(marks: &[bool; 256]) -> [bool; 256]
    ensures { result ≡ turned_round marks.now }
{
    let mut other = [false; 256];
    for (j, &live) in marks.iter().enumerate() {
        other[j] = !live;
    }
    other
}

// The live nodes of 1 to n, rising, and zeros after them: no heap, so all 256 bytes are given, and `count_live` says how many are nodes'. Every
// node is stored, and the next one over it unless it is live, a zero over the last: the store is under no test, so that the compiler can do
// without a branch. `as`: it fits by the clause, n being at most 255; `try_from` would add a case with no answer.
pub fn list_live(marks: &[bool; 256], n: usize) -> [u8; 256]
    requires { n ≤ 255 }
    ensures { result ≡ live_nodes marks.now n ++ replicate (256 - length (live_nodes marks.now n)) 0 }
{
    let mut list = [0u8; 256];
    let mut place = 0;
    for j in 1..n + 1 {
        list[place] = j as u8;
        place += usize::from(marks[j]);
    }
    list[place] = 0;
    list
}

// The missing nodes of 1 to n, rising, and zeros after them, in 256 bytes as those of `list_live`.
pub fn list_missing(marks: &[bool; 256], n: usize) -> [u8; 256]
    requires { n ≤ 255 }
    ensures { result ≡ missing_nodes marks.now n ++ replicate (256 - length (missing_nodes marks.now n)) 0 }
{
    let other = turned(marks);
    list_live(&other, n)
}

// The number at a place left out: those after it moved down by one. The last place keeps what it has.
pub fn remove(list: &mut [u8], place: usize)
    requires { place < length list.old }
    ensures { list.new ≡ without_place place list.old ++ drop (length list.old - 1) list.old }
{
    list.copy_within(place + 1.., place);
}
