// Reading and writing drawing files, joined: theorems alone, in specs/.
#![tactic(auto)]
