// No code: the worked rows of document 01 stand in specs/ as data, and the theorem over them in proofs/.
#![tactic(auto)]
