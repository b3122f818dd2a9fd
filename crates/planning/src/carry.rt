// A plan carried out on a nodes buffer, and its reads counted. A step's four bytes are a part of the plan, read by their places: an array of them
// would be a copy.
ghost use Rattle.std.specs.Prelude.{◌≡◌, ◌+◌, ◌*◌, ◌/◌, ◌≤◌, length};
ghost use Rattle.counts.specs.Counts.{count_all, sum_of};
ghost use Rattle.planning.specs.Plan.{sources_of};
ghost use Rattle.planning.specs.Made.{steps_in, nodes_made};
ghost use Rattle.planning.specs.Inner.{AllIn};

// The steps of a plan, four bytes each, made one after the other.
pub fn carry_out(len: usize, steps: &[u8], nodes: &mut [u8])
    requires { AllIn len nodes.old (steps_in steps.now (length steps.now / 4)) }
    ensures { nodes.new ≡ nodes_made len nodes.old (steps_in steps.now (length steps.now / 4)) }
{
    for i in 0..steps.len() / 4 {
        let node = usize::from(steps[4 * i + 1]);
        let smaller = usize::from(steps[4 * i + 2]);
        let larger = usize::from(steps[4 * i + 3]);
        blocks::xor_block(nodes, len, node, smaller, larger);
    }
}

// The steps of a plan counted: one more for each node that a step reads.
pub fn count_reads(steps: &[u8], reads: &mut [u16; 256])
    requires { sum_of reads.old + 2 * (length steps.now / 4) ≤ 65535 }
    ensures { reads.new ≡ count_all reads.old (sources_of (steps_in steps.now (length steps.now / 4))) }
{
    for i in 0..steps.len() / 4 {
        counts::count_one(reads, usize::from(steps[4 * i + 2]));
        counts::count_one(reads, usize::from(steps[4 * i + 3]));
    }
}
