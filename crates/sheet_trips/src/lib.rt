// The round trips of sheets: theorems, all in specs/.
#![tactic(auto)]
