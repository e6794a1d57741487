// Tests over lists and ids, and parts of a list: definitions and laws, no code.
#![tactic(auto)]
