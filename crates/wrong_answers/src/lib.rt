// Wrong answers of the calls for C that their contracts shut out, for every program that might give them (see specs/). It has no code.
#![tactic(auto)]
