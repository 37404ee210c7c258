// iCalendar text: what a text states, where it is refused, and the canonical text of a calendar. Definitions are in specs/.
#![tactic(auto)]
