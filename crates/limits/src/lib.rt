// Towards the own-step limit, the turn limit and fairness of the machine: the first lemmas (proofs/). Nothing is stated
// yet.
#![tactic(auto)]
