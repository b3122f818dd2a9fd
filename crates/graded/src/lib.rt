// Simplex nodes in graded lexicographic order: by number of data blocks, then by the rising lists of block numbers compared from
// the front. It is the order of source document 000's example.
#![tactic(auto)]

ghost use Rattle.std.specs.Prelude.{◌≡◌, ◌∷◌, ◌++◌, ◌-◌, ◌^◌, length, replicate};
ghost use Rattle.families.specs.Families.{KInRange};
ghost use Rattle.families.specs.declared.Family.TheVariants.{Simplex};
ghost use Rattle.lists.specs.Inner.{places_of};
ghost use Rattle.graded.specs.Order.{graded_table, below, columns_left};

// The columns of k = 8 in that order.
const COLUMNS: [u8; 255] = [
    1, 2, 4, 8, 16, 32, 64, 128, 3, 5, 9, 17, 33, 65, 129, 6, 10, 18, 34, 66, 130, 12, 20, 36, 68,
    132, 24, 40, 72, 136, 48, 80, 144, 96, 160, 192, 7, 11, 19, 35, 67, 131, 13, 21, 37, 69, 133,
    25, 41, 73, 137, 49, 81, 145, 97, 161, 193, 14, 22, 38, 70, 134, 26, 42, 74, 138, 50, 82, 146,
    98, 162, 194, 28, 44, 76, 140, 52, 84, 148, 100, 164, 196, 56, 88, 152, 104, 168, 200, 112,
    176, 208, 224, 15, 23, 39, 71, 135, 27, 43, 75, 139, 51, 83, 147, 99, 163, 195, 29, 45, 77,
    141, 53, 85, 149, 101, 165, 197, 57, 89, 153, 105, 169, 201, 113, 177, 209, 225, 30, 46, 78,
    142, 54, 86, 150, 102, 166, 198, 58, 90, 154, 106, 170, 202, 114, 178, 210, 226, 60, 92, 156,
    108, 172, 204, 116, 180, 212, 228, 120, 184, 216, 232, 240, 31, 47, 79, 143, 55, 87, 151, 103,
    167, 199, 59, 91, 155, 107, 171, 203, 115, 179, 211, 227, 61, 93, 157, 109, 173, 205, 117, 181,
    213, 229, 121, 185, 217, 233, 241, 62, 94, 158, 110, 174, 206, 118, 182, 214, 230, 122, 186,
    218, 234, 242, 124, 188, 220, 236, 244, 248, 63, 95, 159, 111, 175, 207, 119, 183, 215, 231,
    123, 187, 219, 235, 243, 125, 189, 221, 237, 245, 249, 126, 190, 222, 238, 246, 250, 252, 127,
    191, 223, 239, 247, 251, 253, 254, 255,
];

// The table, as a value: a proof that cites it by this function has a name in place of 255 numbers.
fn table() -> [u8; 255]
    ensures { result ≡ graded_table }
{
    COLUMNS
}

// The node at each position of k = 8, where no column is left out and so none need be looked at; 0 at 0.
fn all_nodes(columns: [u8; 255]) -> [u8; 256]
    ensures { result ≡ 0 ∷ columns }
{
    let mut nodes = [0u8; 256];
    nodes[1..].copy_from_slice(&columns);
    nodes
}

// The same for a smaller k, whose columns are below the bound; 0 after the last.
fn nodes_below(columns: [u8; 255], bound: usize) -> [u8; 256]
    requires { columns ≡ graded_table }
    ensures { result ≡ 0 ∷ below bound graded_table ++ replicate (255 - length (below bound graded_table)) 0 }
{
    let mut nodes = [0u8; 256];
    let mut p = 0;
    for column in columns {
        if usize::from(column) < bound {
            p += 1;
            nodes[p] = column;
        }
    }
    nodes
}

// The node at each position of k, whose number is its column; 0 at 0 and after the last. It takes k alone, and no `Code`: the order is one of
// simplex nodes only. 0 is no node's number, and is what the definition has there; an `Option` of a byte takes two bytes.
pub fn nodes(k: usize) -> [u8; 256]
    requires { KInRange Simplex k }
    ensures { result ≡ 0 ∷ columns_left k ++ replicate (256 - 2 ^ k) 0 }
{
    if k == 8 {
        return all_nodes(table());
    }
    nodes_below(table(), base::power(k))
}

// The position of each node of k; 0 for other numbers, as in `nodes`. It goes from the last position to the first, as the places of a list
// are laid down. `as`: a position is below 2^k, which is 256 at most.
pub fn positions(k: usize) -> [u8; 256]
    requires { KInRange Simplex k }
    ensures { result ≡ places_of (columns_left k) }
{
    let nodes = nodes(k);
    let mut positions = [0u8; 256];
    for p in (1..base::power(k)).rev() {
        positions[usize::from(nodes[p])] = p as u8;
    }
    positions
}
