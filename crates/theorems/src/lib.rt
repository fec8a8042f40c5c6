// The promises for readers. Theory only: the statements stand in specs/, their proofs in proofs/.
#![tactic(auto)]
