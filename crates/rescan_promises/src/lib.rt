// The promise of the crate `rescan`, beside those of the crate `promises`. There is no code here; see specs/.
#![tactic(auto)]
