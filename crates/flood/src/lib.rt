// One theorem: how a code spreads over any network that keeps a few laws. No code.
#![tactic(auto)]
