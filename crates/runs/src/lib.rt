// Two runs of withholding: no code, only the theorems of privacy over the definitions, of one private piece (proofs/TwoRuns.antt) and of any number (proofs/EditionRuns.antt).
#![tactic(auto)]
