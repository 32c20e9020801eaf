// What was asked for, of the code that runs: the statements (Demands) stand in specs/, their proofs in proofs/.

#![tactic(auto)]
