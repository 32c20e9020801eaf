// What is promised of every run of the definition: the statements and their proofs stand in specs/.

#![tactic(auto)]
