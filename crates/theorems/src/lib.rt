// What is proved of the turn machine: theorems alone, over the definitions of `machine`.
#![tactic(auto)]
