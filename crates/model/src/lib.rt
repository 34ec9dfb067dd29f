// What documents 01 and 02 mean, as definitions and claims in specs/, and no code.
#![tactic(auto)]
