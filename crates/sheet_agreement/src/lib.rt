// Statements over the answers of the calls; there is nothing to run.
#![tactic(auto)]
