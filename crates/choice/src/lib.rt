// The choice by random words (the smallest exclusive-or) and the bit walk that makes it, one bit of a mask at a time: definitions in
// specs/ and laws in proofs/, over any kind of case, for every generator that chooses a number so. It has no code.
#![tactic(auto)]
