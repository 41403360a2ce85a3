// No code: that the machine's replies follow the tree of the step rules, and that a run stays within the ranges of 13.
#![tactic(auto)]
