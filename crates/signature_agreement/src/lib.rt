// No code: what a signature's entries are good for is stated in specs/ and proofs/Signatures.antt.
#![tactic(auto)]
