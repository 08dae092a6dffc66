// Nothing runs here: what recovery leaves, and that every prefix of a commit's stores can be recovered, stand in specs/.

#![tactic(auto)]
