// Walks of so many steps, over any kind of state: definitions in specs/ and laws in proofs/, for every walk that hands a state on from one
// step to the next. It has no code.
#![tactic(auto)]
