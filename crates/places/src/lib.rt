// Where a document or a jCal text is refused: specifications only.
#![tactic(auto)]
