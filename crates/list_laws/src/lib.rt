// Laws of tests and lists, in proofs/: no code.
#![tactic(auto)]
