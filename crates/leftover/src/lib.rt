// Which nodes can come back: open nodes as a definition in specs/, and the mathematics of repair by pairs in proofs/.
#![tactic(auto)]
