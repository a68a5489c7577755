// What a parse of format options and a padding depend on of their table: the properties of the code points that occur, and nothing else
// (document 02, C-14). There is no code here; see specs/.
#![tactic(auto)]
