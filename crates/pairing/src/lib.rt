// The search for a pair on plain marks: two live nodes related to a node, of which the smaller is least, and how many such pairs
// there are.
#![tactic(auto)]

pub mod count;
mod ends;
mod partner;
pub mod search;
mod set;

pub use set::NodeSet;

// The pair of a node whose smaller node is least, and how many pairs the node has; zeros where it has none, as the operation's answer has.
#[derive(Clone, Copy, Debug, PartialEq, Eq)]
pub struct Pairs {
    pub smaller: usize,
    pub larger: usize,
    pub count: usize,
}

// A node and its pairs.
#[derive(Clone, Copy, Debug, PartialEq, Eq)]
pub struct Found {
    pub node: usize,
    pub pairs: Pairs,
}
