// jCal (RFC 7265): definitions, no code. See specs/.
#![tactic(auto)]
