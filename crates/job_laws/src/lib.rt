// Laws of what the job program writes: statements in specs/, proofs in proofs/, no code.
#![tactic(auto)]
