// The columns of a code's nodes, worked out once for whoever asks for many.
ghost use Rattle.std.specs.Prelude.{◌≡◌};
ghost use Rattle.families.specs.Families.{IsNode, column_of, are_related};
ghost use Rattle.families.specs.Inner.{column_table, third_node};

use crate::{Code, Family, pairs};

// All columns of a code by node number, 0 where there is no node, as by the definition `column_table`. A column is below 2^22: four bytes hold
// it, and make the table half as long to clear and to copy.
#[derive(Clone, Copy)]
pub struct Columns {
    pub code: Code,
    pub by_node: [u32; 256],
    pub ghost filled: { by_node ≡ column_table code.family code.k },
}

impl Columns {
    pub fn new(code: Code) -> Columns
        ensures { result.code ≡ code }
    {
        let by_node = match code.family {
            Family::WeightTwo => pairs::columns(code.k),
            _ => columns_by_node(code),
        };
        Columns { code, by_node }
    }

    // Node j's column.
    pub fn of(&self, j: usize) -> usize
        requires { IsNode self.now.code.family self.now.code.k j }
        ensures { result ≡ column_of self.now.code.family self.now.code.k j }
    {
        self.by_node[j] as usize
    }

    // The node related to nodes a and b; 0 where there is none, as by the definition.
    pub fn third_node(&self, a: usize, b: usize) -> usize
        requires first { IsNode self.now.code.family self.now.code.k a }
        requires second { IsNode self.now.code.family self.now.code.k b }
        ensures { result ≡ third_node self.now.code.family self.now.code.k a b }
    {
        self.code.third_node(self.of(a), self.of(b))
    }

    // Whether three nodes are related, by the table: that of `Code` works out three columns.
    pub fn related(&self, a: usize, b: usize, c: usize) -> bool
        requires first { IsNode self.now.code.family self.now.code.k a }
        requires second { IsNode self.now.code.family self.now.code.k b }
        requires third { IsNode self.now.code.family self.now.code.k c }
        ensures { result ≡ are_related self.now.code.family self.now.code.k a b c }
    {
        (self.of(a) ^ self.of(b)) ^ self.of(c) == 0
    }
}

// The columns by node number, each worked out by itself. `as` as in `pairs::columns`.
fn columns_by_node(code: Code) -> [u32; 256]
    ensures { result ≡ column_table code.family code.k }
{
    let mut table = [0u32; 256];
    for j in 1..code.node_count() + 1 {
        table[j] = code.column(j) as u32;
    }
    table
}
