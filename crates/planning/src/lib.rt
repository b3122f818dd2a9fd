// Planning on plain marks: a round, the plan, and a plan carried out on a nodes buffer.
#![tactic(auto)]

pub mod carry;
pub mod rounds;

// What a plan comes to, and the marks once its steps are made.
#[derive(Clone, Copy, Debug, PartialEq, Eq)]
pub struct Planned {
    pub steps: usize,
    pub rounds: usize,
    pub left: usize,
    pub live: [bool; 256],
}
