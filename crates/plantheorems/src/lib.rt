// Theorems about the definitions of D sheets; there is no function here.
#![tactic(auto)]
