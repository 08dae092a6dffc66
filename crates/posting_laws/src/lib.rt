// Nothing runs here: what postings are, how puts change them, and that every call leaves exactly the heads' stand in specs/.

#![tactic(auto)]
