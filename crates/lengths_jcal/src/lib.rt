// How long the jCal of a text is: specifications only.
#![tactic(auto)]
