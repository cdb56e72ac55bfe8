// The starred cases of document 01. There is no code here: the table and its theorem are in proofs/.
#![tactic(auto)]
