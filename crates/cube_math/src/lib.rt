// Fans through doors in a cube: definitions and theorems, all in specs/.
#![tactic(auto)]
