// The calendar that a text or a document states, and the refusals. Definitions are in specs/.
#![tactic(auto)]
