//! What the answer to a log says of the log as a whole.

ghost use Rattle.onfi_log.specs.Laws.{ComesLaw, EachLaw, LegalLaw, ReportedLaw};

/// A log that is answered as legal is: each of its lines is the phase of a move of the problem as it then stands, no sooner than
/// it may be.
pub fn legal_answer_is_legal()
    ensures { LegalLaw }
{}

/// Each of its lines may come after those before it.
pub fn legal_lines_come()
    ensures { ComesLaw }
{}

/// So is a log with reports of statuses, where LUNs are ready from when they were reported so.
pub fn reported_answer_is_legal()
    ensures { ReportedLaw }
{}

/// Where all are asked for, each line that breaks a condition has its line in the answer; a line that begins while an earlier
/// one is on the bus breaks one, whatever stands between them; and so does one that ends at another moment than it says.
pub fn each_broken_line_is_named()
    ensures { EachLaw }
{}
