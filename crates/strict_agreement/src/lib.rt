// No code: how strict reading stands to whole-text reading, and how far spelling is one, is stated in specs/, proofs/Strict.antt and proofs/Spelling.antt.
#![tactic(auto)]
