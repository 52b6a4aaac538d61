//! The program that a kernel is scanned as, or why there is none (definitions alone).
#![tactic(auto)]
