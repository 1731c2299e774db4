// No code: what a reason says of two trees is stated in specs/, proofs/Reasons.antt and proofs/ReasonBounds.antt.
#![tactic(auto)]
