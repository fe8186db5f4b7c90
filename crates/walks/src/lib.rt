// Laws that proofs by hand share: steps of a walk through a function's code. No code stands here.
#![tactic(auto)]
