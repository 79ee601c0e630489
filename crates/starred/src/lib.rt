// Starred: the worked examples of docs/RULES.md, sections 7 and 9, as one list and one theorem.
// They are computed from the definitions that the promises cite; there is no code to run.
// Uses the specs of refusals, rows, trees, searches, counts, placements and classes.

#![tactic(auto)]
