// The Harbour case of SCOPE. Its table stands in specs/, its theorem in proofs/.
#![tactic(auto)]
