// No code: a run as a list of calls of start and reply on lent slices, and the demands as theorems about every list.
#![tactic(auto)]
