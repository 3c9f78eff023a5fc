// A worked instance of the whole cycle: what it asks can be met, again and again, and what it promises
// is no less than it says. And that a source's cable can be pulled after any request. No code.
#![tactic(auto)]
