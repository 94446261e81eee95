// No code: units one after the other off a plain list of bytes. Their vocabulary stands in specs/, the laws in proofs/.
#![tactic(auto)]
