// Demand 3: the mirrors answer as one plain copy. No code: specs/ has the statement, proofs/ the proof.
#![tactic(auto)]
