// Nothing runs here: that every commit answers by the table of "Numbers seen" (crate `statements`) stands in specs/.

#![tactic(auto)]
