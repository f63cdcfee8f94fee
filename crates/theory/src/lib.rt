// Laws about the definitions of `model`, by subject: what the proofs of the functions need. All of it is in specs/.
#![tactic(auto)]
