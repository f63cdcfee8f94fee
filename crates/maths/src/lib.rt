// Mathematics with no word of scheduling: rows, counts, sums, the lowest with a property. All of it is in specs/.
#![tactic(auto)]
