// What is ordered of the builder.

#![tactic(auto)]
