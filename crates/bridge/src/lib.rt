// The definitions of `meaning` are what `algebra` means by them. Theory only: everything stands in proofs/.
#![tactic(auto)]
