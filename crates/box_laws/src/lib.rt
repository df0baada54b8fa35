// Bounds on the bends of a path, by strips and by boxes: statements in specs/, proofs in proofs/, no code.
#![tactic(auto)]
