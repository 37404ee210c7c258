// The calls of jCal. What each answers, and what it leaves in the lent buffers, is defined in specs/.
#![tactic(auto)]
