#![tactic(auto)]
// The calls that PMD values are on the object table: definitions and laws alone.
