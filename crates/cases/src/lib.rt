// The worked cases of document 01, as a table about the definitions: specs/Cases.antt states them, proofs/Cases.antt proves them.
#![tactic(auto)]
