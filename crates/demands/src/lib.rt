// The three demands on the session, as theorems alone: what they say is in specs/, that it holds in proofs/.
#![tactic(auto)]
