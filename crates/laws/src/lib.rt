// What holds of every entry and every step of the machine: theorems in proofs/, with the few definitions
// that their statements need in specs/. Nothing here runs.
#![tactic(auto)]
