// Laws of a sheet of eight foils, in proofs/: no code.
#![tactic(auto)]
