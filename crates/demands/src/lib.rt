// The user's demands, stated in specs/ and proved in proofs/. Nothing runs here.
#![tactic(auto)]
