// Nodes in two forms.
ghost use Rattle.std.specs.Prelude.{◌≡◌};
ghost use Rattle.families.specs.Families.{node_count};
ghost use Rattle.lists.specs.Lists.{live_nodes};

use families::Columns;

// Nodes of a code by their marks and by their list, which rises: the live ones, or those that may be read.
#[derive(Clone, Copy)]
pub struct NodeSet<'a> {
    pub columns: &'a Columns,
    pub marks: &'a [bool; 256],
    pub list: &'a [u8],
    pub ghost listed: { list.now ≡ live_nodes marks.now (node_count columns.now.code.family columns.now.code.k) },
}
