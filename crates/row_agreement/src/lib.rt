// No code: what holds of sizes in all rows is stated in specs/ and proofs/Rows.antt.
#![tactic(auto)]
