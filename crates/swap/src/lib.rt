// Swap links and their costs. The definitions stand in specs/, their laws in proofs/.
#![tactic(auto)]
