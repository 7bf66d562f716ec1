// Definitions and lemmas alone: charts of ticks and cores, sums, and shares laid end to end.
#![tactic(auto)]
