// What a scan depends on of its table: the properties of the code points that occur in the source, and nothing else (document 02, C-14). There
// is no code here; see specs/.
#![tactic(auto)]
