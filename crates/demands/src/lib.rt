// Nothing runs here: the three demands as theorems over the definitions stand in specs/Demand1.antt, Demand2.antt and Demand3.antt, and what shows
// that their premises can be met in specs/Exhibits.antt and Struck.antt.

#![tactic(auto)]
