// Small random calls and capped scores by computation, against an independent reference. No functions.
#![tactic(auto)]
