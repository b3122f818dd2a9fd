// The other node of a pair.
ghost use Rattle.std.specs.Prelude.{◌≡◌};
ghost use Rattle.families.specs.Families.{IsNode};
ghost use Rattle.families.specs.Inner.{third_node};
ghost use Rattle.pairing.specs.Inner.{live_partner};

use families::Columns;

// The node related to a and j, where it is live, or 0: by the clause it is `live_partner`, whose definition gives 0. Whether it is
// above a need not be asked: first members go upward, and a live node below a with a as its partner would have been found before.
pub fn live_partner(columns: &Columns, marks: &[bool; 256], j: usize, a: usize) -> usize
    requires { IsNode columns.now.code.family columns.now.code.k j × IsNode columns.now.code.family columns.now.code.k a }
    ensures { result ≡ live_partner columns.now.code.family columns.now.code.k marks.now j a }
{
    let b = columns.third_node(j, a);
    if marks[b] { b } else { 0 }
}
