// No gap on the way to a parent: the theorem of document 02, R-9, over demand 3. specs/ and proofs/ have all of it.

#![tactic(auto)]
