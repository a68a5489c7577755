// Which records of a list may be kept when a source is edited behind them, and from which state reading goes on behind the last of them
// (document 02, C-7). There is no code here; see specs/.
#![tactic(auto)]
