//! The laws of what patterns see, each a clause of a function that does nothing.

ghost use Rattle.fold_laws.specs.Table.{first_pattern, patterns};
ghost use Rattle.canonicalise.specs.Reach.{StaysQuiet};

/// Does nothing. Its clause says that where no pattern of the table matches at an operation, none matches at one that sees no more.
pub fn patterns_stay_quiet()
    ensures { StaysQuiet (first_pattern patterns) }
{}
