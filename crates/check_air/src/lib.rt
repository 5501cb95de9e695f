// No code: what is said of the exported functions together, from one laptop's call to another's, stands in specs/, and its proof in proofs/.
#![tactic(auto)]
