// Laws of tests, which the layers above need: several at once, and how many numbers pass one. No functions.
#![tactic(auto)]
