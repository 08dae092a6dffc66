// Nothing runs here: the laws of the calls beside commit, and what each call leaves of other transactions, stand in specs/.

#![tactic(auto)]
