// Nodes as rows of the lent bytes: what a step finds there and what an edit does. Definitions and theorems only, in specs/.
#![tactic(auto)]
