// Demand 3: why every board can be finished, the theorem about every list of calls, and why every board has a report.
// There is no code here: the definitions are in specs/, their theorems in proofs/.
#![tactic(auto)]
