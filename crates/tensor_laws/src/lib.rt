// Laws of flat lists seen as tensors, which the layers above need. No functions.
#![tactic(auto)]
