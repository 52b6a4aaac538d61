// What is compacted, and the names that this makes.
use crate::matching::Target;
use inspectors::MarkNames;

/// What is compacted, and the names that this makes.
#[derive(Clone, Copy)]
pub struct Plan {
    pub target: Target,
    pub names: MarkNames,
}
