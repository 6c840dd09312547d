// Theorems about the definitions of the shaper's calls: the marked rows, what they rule out, which ids a row keeps. specs/ and proofs/ have all of it.

#![tactic(auto)]
