// The worked cases of SPEC 13, as one table of theorems: specs/Table.antt states it, proofs/Worked.antt proves it.
#![tactic(auto)]
