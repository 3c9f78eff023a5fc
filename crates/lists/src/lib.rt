// Lists by their places, and counted loops: definitions and laws alone, with no function.
#![tactic(auto)]
