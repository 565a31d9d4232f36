// Definitions and theorems only: what a machine keeps beside the model's state, and why it says the same. There is no code here.
#![tactic(auto)]
