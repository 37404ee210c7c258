// How long the XML of a text is: specifications only.
#![tactic(auto)]
