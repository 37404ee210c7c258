// How long the iCalendar text of a jCal text is: specifications only.
#![tactic(auto)]
