// The customer's sentences, over tables and event records: statements and citations, no code.
#![tactic(auto)]
