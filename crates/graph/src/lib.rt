// Walks in a graph on numbers. There is no code here: definitions with their laws.
#![tactic(auto)]
