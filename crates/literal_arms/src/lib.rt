// The plain tokens of a literal and of format options, by the arms of `get_next_token` that take them. There is no code here; see specs/.
#![tactic(auto)]
