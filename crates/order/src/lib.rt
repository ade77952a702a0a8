// Demand 3 (docs/MAP.md has its sentences): the linked nodes are one chain, and the calls that took effect are a
// plain queue's. Theorems in proofs/, and in specs/ the definitions that their statements need. Nothing here runs.
#![tactic(auto)]
