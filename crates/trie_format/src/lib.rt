// The letter tree's table of a list of words, as a definition with its laws. There is no code.
#![tactic(auto)]
