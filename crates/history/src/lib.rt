// Document 01's account of waiting ids, and demand 3 as one theorem: specs/ and proofs/ have all of it.

#![tactic(auto)]
