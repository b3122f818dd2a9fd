// When a node comes back: sums of live nodes and the claim in specs/, and their mathematics in proofs/.
#![tactic(auto)]
