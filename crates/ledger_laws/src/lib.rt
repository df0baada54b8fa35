// Laws of the ledger and of what is lent, in proofs/: no code.
#![tactic(auto)]
