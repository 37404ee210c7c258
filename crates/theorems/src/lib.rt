// Theorems over the answers of both conversions, over whole calls and lists of calls: specifications only.
#![tactic(auto)]
