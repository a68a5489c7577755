// Which tokens the site profile forbids, by koto's own stack of modes, and that one pass over the records of a scan finds the first of them
// (document 02, C-14). There is no code here; see specs/.
#![tactic(auto)]
