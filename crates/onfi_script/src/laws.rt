//! What holds of plan texts, once for all.

ghost use Rattle.onfi_script.specs.Laws.{AbsentLaw, ReadBackLaw, StrangerLaw};

/// The text of a schedule is read as that schedule, with the finish that it names and the certificate after it.
pub fn text_is_read_back()
    ensures { ReadBackLaw }
{}

/// A schedule with a line of a LUN that isn't there isn't legal, nor one with a member of a number that no want has.
pub fn strangers_are_illegal()
    ensures luns { AbsentLaw }
    ensures wants { StrangerLaw }
{}
