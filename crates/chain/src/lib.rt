// Lists read by position, and chains of nodes along their links: theorems in proofs/, with the definitions
// that they are about in specs/. Nothing here runs, and nothing here knows a machine.
#![tactic(auto)]
