// What it is for a contract to determine the outcome of a function, for all inputs: a definition in specs/,
// and in proofs/ how to show it. Nothing here runs.
#![tactic(auto)]
