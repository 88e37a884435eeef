// Laws only, in proofs/Finite.antt: the numbers that follow from the registers alone are finite, so that no write tests them.
#![tactic(auto)]
