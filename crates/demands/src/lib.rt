// Demands: what is true of every run of the definition, as statements and their proofs; there is no code to run.
// A static search costs no more than the worst count of those who collided (docs/RULES.md, section 7), and what the
// rows of a run have in common (sections 4, 8 and 10).
// Uses the specs and laws of refusals, rows, trees, messages, phases, contention, inputs, events and wire.

#![tactic(auto)]
