// What request c demands of the choice of a rate: the statements and examples stand in specs/, their proofs in proofs/. There is no code here.
#![tactic(auto)]
