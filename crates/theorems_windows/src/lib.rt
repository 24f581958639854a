// Theorems on the windows, and no code: what they show equals sums over the whole history of counts.
#![tactic(auto)]
