// No code: what is shown of a file of records makes the same file again, stated and proved.
#![tactic(auto)]
