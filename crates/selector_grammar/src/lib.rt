// The grammar of selectors as text has no code of its own: specs/ defines it, proofs/ shows that it is decided.
#![tactic(auto)]
