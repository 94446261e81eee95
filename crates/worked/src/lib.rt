// No code: document 01's starred worked numbers, and what document 02 corrects, as one table. It stands in specs/Worked.antt.
#![tactic(auto)]
