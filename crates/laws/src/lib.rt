// Laws that the other crates cite. There is no code here and no word of the product: the
// definitions stand in specs/, and what is proved of them in proofs/.
#![tactic(auto)]
