// What request h demands of two boxes in a row: the statements and examples stand in specs/, their proofs in proofs/. There is no code here.
#![tactic(auto)]
