//! Laws of what is kept. The functions do nothing; their contracts are the laws.
ghost use Rattle.off_kept.specs.Laws.{KeptStaysRight, FirstIsRight, FoundIsRight, ProfileIsModems};

/// Behind writes all that is kept is right, without the entries of which they change a row.
pub fn kept_bodies_stay_right()
    ensures { KeptStaysRight }
{}

/// A right entry that is put first leaves all right.
pub fn a_right_entry_may_be_first()
    ensures { FirstIsRight }
{}

/// What is found of a modem is right of it.
pub fn a_found_body_is_right()
    ensures { FoundIsRight }
{}

/// The profile of a right entry is its modem's.
pub fn a_right_entry_has_its_modems_profile()
    ensures { ProfileIsModems }
{}
