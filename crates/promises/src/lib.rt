// What the buyer's demands say of every call, as theorems on the definitions: see specs/ and proofs/.
#![tactic(auto)]
