// What is proved of the words of a stopped collection, in proofs/.
#![tactic(auto)]
