#![tactic(auto)]

// No code: general facts on tests, remainders, tables and lists that no layer owns. They stand in proofs/.
