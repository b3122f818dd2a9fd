// The tetrahedron: fourteen columns, in a constant table.
ghost use Rattle.std.specs.Prelude.{◌≡◌, ◌≤◌};
ghost use Rattle.families.specs.Families.{column_of, node_of};
ghost use Rattle.families.specs.declared.Family.TheVariants.{Tetrahedron};

// The columns of nodes 1 to 14.
const COLUMNS: [usize; 14] = [1, 2, 4, 8, 5, 3, 6, 7, 10, 12, 14, 9, 11, 13];

// The nodes of columns 0 to 15; 0 where there is none, as by the definition.
const NODES: [usize; 16] = [0, 1, 2, 6, 3, 5, 7, 8, 4, 12, 9, 13, 10, 14, 11, 0];

// Node j's column.
pub fn column(j: usize) -> usize
    requires { (1 ≤ j) × (j ≤ 14) }
    ensures { result ≡ column_of Tetrahedron 4 j }
{
    COLUMNS[j - 1]
}

// The node with this column; 0 where there is none.
pub fn node_of(column: usize) -> usize
    ensures { result ≡ node_of Tetrahedron 4 column }
{
    if 16 <= column {
        return 0;
    }
    NODES[column]
}
