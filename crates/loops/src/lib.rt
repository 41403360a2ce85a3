// No code: specs/ has the `for` loop as a function and a part of a lent slice, proofs/ their laws.
#![tactic(auto)]
