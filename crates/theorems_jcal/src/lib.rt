// Theorems over the answers of the calls of jCal, over whole calls: specifications only.
#![tactic(auto)]
