//! Words of signals.

use gates::signal::Signal;
use resolution_proof::items::Items;

/// A word of signals, the most significant first. Contracts see it as their list.
pub type SignalWord = Items<Signal>;
