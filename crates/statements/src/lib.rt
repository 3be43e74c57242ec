// Document 03's statements in specs/: of groups, splits and cores, and of peel, solve, check and surplus; in proofs/ that our theorems and the
// calls' contracts give them. No functions.
#![tactic(auto)]
