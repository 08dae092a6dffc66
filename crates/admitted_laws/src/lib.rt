// Nothing runs here: what repairable, resting and fit mean, in words, both ways, stands in specs/.

#![tactic(auto)]
