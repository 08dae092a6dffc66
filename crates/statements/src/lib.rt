// Nothing runs here and nothing is proved: the paper's sentences and the three demands, put in words, as types, stand in specs/.

#![tactic(auto)]
