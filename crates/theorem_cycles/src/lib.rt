// The facts about every lawful cycle, with no limit in scope. There is no code here: the definitions are in specs/,
// their theorems in proofs/.
#![tactic(auto)]
