// Worked examples of both conversions, computed by the definitions. They are in specs/.
#![tactic(auto)]
