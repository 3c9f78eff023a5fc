// The demands as theorems over the definitions of the other crates. No code.
#![tactic(auto)]
