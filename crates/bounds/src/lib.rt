// No code: the bounds that the header gives a caller are stated in specs/ and proofs/Bounds.antt.
#![tactic(auto)]
