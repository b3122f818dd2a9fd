// The lettered examples of document 01: a table in specs/, and its proof in proofs/.
#![tactic(auto)]
