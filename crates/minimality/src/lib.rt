// No code: a theorem on the grouping of every graph. What it says stands in specs/, the argument in proofs/.
#![tactic(auto)]
