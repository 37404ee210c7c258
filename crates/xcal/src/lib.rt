// xCal: what a document states, where it is refused, and the canonical XML of a calendar. Definitions are in specs/.
#![tactic(auto)]
