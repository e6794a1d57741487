// The lent table: where each named cell lies, what a table is as a state, and what an event or a list does to it. Definitions and laws, no code.
#![tactic(auto)]
