//! Laws of the definitions.
ghost use Rattle.column_ends.specs.Laws.{GroupEndsHaveType, PageEndsHaveType, CountsAreExact, CountsAreJoined};

/// The ends of a group are values of the type that they are read as, where that is no dictionary's.
pub fn group_ends_have_their_type()
    ensures { GroupEndsHaveType }
{}

/// The ends of pages, by the index in a file, are values of the type that they are read as, where that is no dictionary's.
pub fn page_ends_have_their_type()
    ensures { PageEndsHaveType }
{}

/// The bytes of ends are counted up to a number that fits no array, and fit exactly where all of them do.
pub fn counts_are_exact()
    ensures exact { CountsAreExact }
    ensures joined { CountsAreJoined }
{}
