// No code: what holds of layouts in all rows is stated in specs/ and proofs/Layouts.antt.
#![tactic(auto)]
