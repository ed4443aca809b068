// What the reader of saved sessions rests on. Laws alone.
#![tactic(auto)]
