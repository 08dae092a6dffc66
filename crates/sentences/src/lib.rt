// Nothing runs here: each sentence of document 01 that speaks of one definition is proved of that definition in specs/, straight from its text.

#![tactic(auto)]
