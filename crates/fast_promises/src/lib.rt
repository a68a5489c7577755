// No code: the two engines of the scan answer alike (see specs/).
#![tactic(auto)]
