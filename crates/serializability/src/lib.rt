// Steps whose locks do not clash commute; the theorem on lists of calls. Definitions and theorems only, in specs/.
#![tactic(auto)]
