// Mathematics over any field. Theory only: everything stands in proofs/.
#![tactic(auto)]
