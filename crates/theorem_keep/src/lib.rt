// What every board reached by play keeps. There is no code here: the definitions are in specs/, their theorems in
// proofs/.
#![tactic(auto)]
