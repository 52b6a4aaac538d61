//! Executors as plain data, for definitions that go down an executor (definitions alone).
#![tactic(auto)]
