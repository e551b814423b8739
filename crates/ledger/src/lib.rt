#![tactic(auto)]

// Choices and counts, as definitions alone: see specs/.
