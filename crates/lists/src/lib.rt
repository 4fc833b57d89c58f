// Definitions on lists, order, texts and decimal numerals that know nothing of drawings; they stand in specs/.
#![tactic(auto)]
