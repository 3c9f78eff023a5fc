// Laws of the rounds that no function's proof needs: timers, what hosts are told, a request that
// outlasts its link, identifiers apart, and that nothing reserved is sent. There is no code.
#![tactic(auto)]
