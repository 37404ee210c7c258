// A valid calendar, whichever format states it. Definitions are in specs/.
#![tactic(auto)]
