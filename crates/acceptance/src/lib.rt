//! Which sources are accepted, why another is refused, and the kernel of an accepted one (definitions alone).
#![tactic(auto)]
