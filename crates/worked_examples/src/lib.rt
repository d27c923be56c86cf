// The worked examples of paper 01, as one proved table: see specs/.
#![tactic(auto)]
