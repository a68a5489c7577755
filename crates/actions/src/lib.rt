// What an ASCII character begins outside a string, as a number, and the arm of `get_next_token` that has it. There is no code here; see specs/.
#![tactic(auto)]
