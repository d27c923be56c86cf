// Synthesis: the machine of a graph.

#![tactic(auto)]

pub mod table; // table.rt: the machine table of a graph, and the operation that makes it
