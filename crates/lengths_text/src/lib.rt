// How long the text of a document is: specifications only.
#![tactic(auto)]
