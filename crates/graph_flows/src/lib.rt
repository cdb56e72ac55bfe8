// What the definitions of cycle cancelling mean. There is no code here: the definitions are in specs/, their theorems
// in proofs/.
#![tactic(auto)]
