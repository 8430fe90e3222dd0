// Assignments.

use crate::items::Items;

/// A value for each variable in order: the first is variable 1's.
pub type Assignment = Items<bool>;
