// A worked instance of the demands: what they ask can be met, and what they promise is no less than they say. No code.
#![tactic(auto)]
