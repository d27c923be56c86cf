// The per-cycle agreement of graph and machine: see specs/.
#![tactic(auto)]
