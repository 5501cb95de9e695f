// Each exported call on a laptop, tied by the prover to what demand 3 of lists of calls says of it. Nobody calls these functions.
#![tactic(auto)]

mod calls;
