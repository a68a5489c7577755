// What a token depends on of what stands behind a newline that it does not take: on nothing (document 02, C-7). There is no code here; see
// specs/.
#![tactic(auto)]
