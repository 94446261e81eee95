// No code: what lists of calls promise together. Their vocabulary stands in specs/, the theorems in proofs/.
#![tactic(auto)]
