// What a token does to the stack of modes, by the mode on top of it. There is no code here; see specs/.
#![tactic(auto)]
