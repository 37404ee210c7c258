// JSON texts by the grammar of RFC 8259: definitions and laws, no code. See specs/.
#![tactic(auto)]
