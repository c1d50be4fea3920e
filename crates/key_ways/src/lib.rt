// Theory only: what is proved of a key. There is no code here.
#![tactic(auto)]
