// No code: the agreement of the definitions of kinds is stated in specs/ and proofs/Agreement.antt.
#![tactic(auto)]
