// No code: what holds of two stations that know each other and exchange messages, stated and proved.
#![tactic(auto)]
