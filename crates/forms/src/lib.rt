// What a form of instruction is, and what follows for any table of forms. There is no code here: the theory is in specs/ and proofs/.
#![tactic(auto)]
