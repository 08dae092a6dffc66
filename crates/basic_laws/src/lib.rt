// Nothing runs here: laws of lists, of tests and of chains, which every crate above shares, stand in specs/.

#![tactic(auto)]
