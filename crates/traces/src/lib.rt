// Lists of calls on lent bytes, and the theorem on them; there is no code here.
#![tactic(auto)]
