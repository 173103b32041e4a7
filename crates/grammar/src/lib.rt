// Macros as texts: the grammar, what reading a text gives, and that the two agree. There is no code here.

#![tactic(auto)]
