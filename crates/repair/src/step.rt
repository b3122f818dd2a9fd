// Step: one missing node repaired from two live nodes that the caller names.
ghost use Rattle.std.specs.Prelude.{◌≡◌};
ghost use Rattle.checks.specs.Checks.{first_met};
ghost use Rattle.checks.specs.Refusals.{number_in};
ghost use Rattle.repair.specs.Answers.{stepped_as};
ghost use Rattle.repair.specs.Step.{step_checks, stepped, nodes_stepped};

use crate::{Answer, Session};
use base::is_outside;
use checks::Refusal;

impl Session {
    // The first check of a step that is met, if one is.
    fn check_step(
        self,
        nodes: &[u8],
        node: usize,
        first: usize,
        second: usize,
    ) -> Result<(), Refusal>
        ensures { number_in result ≡ first_met (step_checks self nodes.now node first second) }
    {
        let code = self.check_nodes(nodes.len())?;
        let n = code.node_count();
        if is_outside(1, n, node) {
            return Err(Refusal::UnknownNode);
        }
        if is_outside(1, n, first) {
            return Err(Refusal::UnknownNode);
        }
        if is_outside(1, n, second) {
            return Err(Refusal::UnknownNode);
        }
        if !code.related(first, second, node) {
            return Err(Refusal::NotRelated);
        }
        let live = self.live;
        if live[node] {
            return Err(Refusal::NodeLive);
        }
        if !live[first] {
            return Err(Refusal::NodeMissing);
        }
        if !live[second] {
            return Err(Refusal::NodeMissing);
        }
        Ok(())
    }

    // The node's block becomes the XOR of the two others, and the node becomes live; the step and its two reads are counted.
    pub fn step(mut self, nodes: &mut [u8], node: usize, first: usize, second: usize) -> Answer<()>
        ensures value { stepped_as result ≡ stepped self nodes.old node first second }
        ensures nodes_after { nodes.new ≡ nodes_stepped self nodes.old node first second }
    {
        if let Err(refusal) = self.check_step(nodes, node, first, second) {
            return self.refused(refusal);
        }
        blocks::xor_block(nodes, self.len, node, first, second);
        self.live[node] = true;
        self.steps += 1;
        self.reads[first] += 1;
        self.reads[second] += 1;
        self.served(())
    }
}
