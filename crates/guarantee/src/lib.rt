// Demand 3 as theorems about the decision on a sheet's bytes; there is no function here.
#![tactic(auto)]
