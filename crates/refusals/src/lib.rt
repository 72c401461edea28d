// No code: for each call an input for each refusal, and inputs with two faults, as computed tables in specs/. Their proofs stand in proofs/.
#![tactic(auto)]
