// Known values of the definitions, computed: it has no function.
#![tactic(auto)]
