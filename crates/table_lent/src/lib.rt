// A part of a lent table taken out and put back, and a table lent on: what a walk by hand of a function over it stands on. It is all in proofs/.
#![tactic(auto)]
