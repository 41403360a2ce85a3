// No code: the step rules as a tree of questions, reports and events, and what is proved of every run of them.
#![tactic(auto)]
