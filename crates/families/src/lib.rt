// The three code families: the range of k, the number of nodes, each node's column, the node of a column, and which nodes
// are related.
#![tactic(auto)]

mod pairs;
mod table;
mod tetrahedron;

ghost use Rattle.std.specs.Prelude.{◌≡◌, ◌^◌, ◌<◌};
ghost use Rattle.std.specs.Int.Bits.{bit_xor};
ghost use Rattle.families.specs.Families.{family_of, least_k, most_k, KInRange, IsNode, node_count, column_of, node_of, are_related};
ghost use Rattle.families.specs.Numbers.{family_numbered};
ghost use Rattle.families.specs.declared.Family.TheVariants.{Simplex};

pub use table::Columns;

// A family, with its number in document 01.
#[derive(Clone, Copy, Debug, PartialEq, Eq)]
pub enum Family {
    Simplex = 1,
    WeightTwo = 2,
    Tetrahedron = 3,
}

// A number that is no family's.
#[derive(Clone, Copy, Debug, PartialEq, Eq)]
pub struct UnknownFamily(pub usize);

impl TryFrom<usize> for Family {
    type Error = UnknownFamily;

    ghost try_from_gives = { λ number result. result ≡ family_numbered number };

    fn try_from(number: usize) -> Result<Self, UnknownFamily> {
        match number {
            1 => Ok(Family::Simplex),
            2 => Ok(Family::WeightTwo),
            3 => Ok(Family::Tetrahedron),
            _ => Err(UnknownFamily(number)),
        }
    }
}

// The family of a number, which is 1, 2 or 3. It stands beside `try_from` for whoever knows that, and cannot fail.
pub fn family_of(number: usize) -> Family
    ensures { result ≡ family_of number }
{
    match number {
        1 => Family::Simplex,
        2 => Family::WeightTwo,
        _ => Family::Tetrahedron,
    }
}

// The two ends of k's range: a line of a table each, which one function of both would not make plainer. Both stand, as a k is refused for
// either end.
impl Family {
    pub fn least_k(self) -> usize
        ensures { result ≡ least_k self }
    {
        match self {
            Family::Simplex => 2,
            Family::WeightTwo => 2,
            Family::Tetrahedron => 4,
        }
    }

    pub fn most_k(self) -> usize
        ensures { result ≡ most_k self }
    {
        match self {
            Family::Simplex => 8,
            Family::WeightTwo => 22,
            Family::Tetrahedron => 4,
        }
    }
}

// A code: a family and a k in its range.
#[derive(Clone, Copy)]
pub struct Code {
    pub family: Family,
    pub k: usize,
    pub ghost in_range: { KInRange family k },
}

// Number 0 is no node's, as the definitions have it, so that 0 stands for none and no `Option` does.
impl Code {
    // n, the number of nodes.
    pub fn node_count(self) -> usize
        ensures { result ≡ node_count self.family self.k }
    {
        match self.family {
            Family::Simplex => base::power(self.k) - 1,
            Family::WeightTwo => pairs::count(self.k),
            Family::Tetrahedron => 14,
        }
    }

    // Node j's column.
    pub fn column(self, j: usize) -> usize
        requires { IsNode self.family self.k j }
        ensures { result ≡ column_of self.family self.k j }
    {
        match self.family {
            Family::Simplex => j,
            Family::WeightTwo => pairs::column(self.k, j),
            Family::Tetrahedron => tetrahedron::column(j),
        }
    }

    // The node with this column; 0 where there is no such node: by the clause it is `node_of`, whose definition gives 0.
    pub fn node_of(self, column: usize) -> usize
        ensures { result ≡ node_of self.family self.k column }
    {
        match self.family {
            Family::Simplex => simplex_node(self.k, column),
            Family::WeightTwo => pairs::node_of(self.k, column),
            Family::Tetrahedron => tetrahedron::node_of(column),
        }
    }

    // The node related to two nodes, by their columns; 0 where there is none. The XOR of columns is below 2^k, so that it need not be
    // held to a range.
    pub fn third_node(self, x: usize, y: usize) -> usize
        requires { (x < 2 ^ self.k) × (y < 2 ^ self.k) }
        ensures { result ≡ node_of self.family self.k (bit_xor x y) }
    {
        match self.family {
            Family::Simplex => x ^ y,
            Family::WeightTwo => pairs::node_below(self.k, x ^ y),
            Family::Tetrahedron => tetrahedron::node_of(x ^ y),
        }
    }

    // Whether three nodes are related. That of `Columns` is for whoever asks often; this one needs no table.
    pub fn related(self, a: usize, b: usize, c: usize) -> bool
        requires first { IsNode self.family self.k a }
        requires second { IsNode self.family self.k b }
        requires third { IsNode self.family self.k c }
        ensures { result ≡ are_related self.family self.k a b c }
    {
        (self.column(a) ^ self.column(b)) ^ self.column(c) == 0
    }
}

// Simplex: the node with this column, which is its number; 0 where there is none.
fn simplex_node(k: usize, column: usize) -> usize
    requires { KInRange Simplex k }
    ensures { result ≡ node_of Simplex k column }
{
    if base::power(k) <= column {
        return 0;
    }
    column
}
