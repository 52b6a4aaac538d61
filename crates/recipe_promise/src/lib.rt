//! What each command of a recipe moves, and the list that a recipe prescribes for a source (definitions alone).
#![tactic(auto)]
