// Laws of paths, in proofs/: no code.
#![tactic(auto)]
