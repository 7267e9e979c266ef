// No code: key making, signing and checking as SPEC 7 to 9 say them (specs/), and that what signing signs, checking accepts (proofs/Demand3.antt).
#![tactic(auto)]
