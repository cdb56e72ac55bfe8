// The book of promises: every sentence that claims something, of document 01, of the three demands and of the requests
// of document 02 that were met, stated once in specs/ and proved in proofs/. There is no code here.
#![tactic(auto)]
