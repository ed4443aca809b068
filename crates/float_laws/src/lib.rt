// Laws of f32 and f64 that the layers above need and the kit lacks. No functions.
#![tactic(auto)]
