// Where a text is refused. There is no code here.

#![tactic(auto)]
