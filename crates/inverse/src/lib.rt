// The table with upper and lower letters exchanged, as a definition, and the theorems on the three tasks over it and over the table itself. There is no code.
#![tactic(auto)]
