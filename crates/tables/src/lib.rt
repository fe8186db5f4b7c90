// The table of numbers that stands for a network in the C interface: definitions and laws; no function.
#![tactic(auto)]
