// Which format string is written for options (document 02, C-10).
#![tactic(auto)]
