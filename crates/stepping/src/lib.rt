// What holds between two read steps, and what a step does to it (see specs/). There is no function here: the crate `lexer` reads, and whoever
// reads on from step to step uses these laws.
#![tactic(auto)]
