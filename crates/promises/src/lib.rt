// What a user may rely on: each line of docs/PROMISES.md as a statement, proved by citing. There is no code here; see specs/.
#![tactic(auto)]
