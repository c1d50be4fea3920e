// The ways to cut a word into listed words, as definitions, and the theorems that they are the readings of the letter tree. There is no code.
#![tactic(auto)]
