// Nothing runs here: specs/ proves that the slots do what the definition says.

#![tactic(auto)]
