// No code: the promise on patches that are fed one after the other (demand 3), over lists of calls.
#![tactic(auto)]
