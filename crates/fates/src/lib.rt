// What numbered constraints stand for, and laws that their fates and their redundancy are those of the rules. There is no code here.
#![tactic(auto)]
