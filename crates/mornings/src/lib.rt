// Nothing runs here: document 01's mornings, its example of a replay and a table of script lines are computed by the checker in specs/.

#![tactic(auto)]
