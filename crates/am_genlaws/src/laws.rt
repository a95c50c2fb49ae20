//! Laws over generated changes.
ghost use Rattle.am_genlaws.specs.Laws.{MadeAreFine, MadeAreValid};

/// Each of the first n generated changes is fine, for n up to 100,000.
pub fn made_are_fine()
    ensures { MadeAreFine }
{}

/// Where no two of the first n generated changes have one hash, they are a valid set, for n up to 100,000.
pub fn made_are_valid()
    ensures { MadeAreValid }
{}
