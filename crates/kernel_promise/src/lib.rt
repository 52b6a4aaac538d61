//! What is promised of a kernel: the list that a recipe prescribes, and what stays true of a kernel under every command
//! (definitions alone).
#![tactic(auto)]
