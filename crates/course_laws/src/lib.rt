// Courses by segments, over any free test: definitions in specs/, laws in proofs/, no code.
#![tactic(auto)]
