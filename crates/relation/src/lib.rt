// How an engine stands for a state of the copying machine: the relation, and what keeps it.
#![tactic(auto)]
