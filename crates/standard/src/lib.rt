// The definitions of rounding and of words, tied to the words of IEEE 754: specs/ states them, proofs/ proves them. It has no code.
#![tactic(auto)]
