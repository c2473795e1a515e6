// Theorems about the model, about a step, about whole tables and about demand 3: nothing to run.
#![tactic(auto)]
