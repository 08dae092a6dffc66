// Nothing runs here: how a run of commit's steps ends, and what each number leaves, stand in specs/.

#![tactic(auto)]
