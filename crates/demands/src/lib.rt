// No code: what the library promises as a whole. The statements stand in specs/, their proofs in proofs/.
#![tactic(auto)]
