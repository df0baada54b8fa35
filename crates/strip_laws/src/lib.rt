// Laws of runs and strips, in proofs/: no code.
#![tactic(auto)]
