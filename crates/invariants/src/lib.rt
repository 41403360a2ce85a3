// No code: that every float of a session's record is one of the format binary64, so that its bytes keep it.
#![tactic(auto)]
