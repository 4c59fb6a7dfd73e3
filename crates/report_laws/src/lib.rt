//! Laws of progress reports: each is shown by a contract alone, and its function does nothing.
#![tactic(auto)]

ghost use Rattle.report_laws.specs.Laws.{DerivationsAreSeen, ReportIsOne, ReportsApply, ReportsAreFlat, ReportsExist};

/// A place has no two reports.
pub fn report_is_one()
    ensures { ReportIsOne }
{}

/// The report of a place tells its full item set, whatever flat form of the grammar is read by.
pub fn reports_are_flat()
    ensures { ReportsAreFlat }
{}

/// Where a derivation of the start comes by, the report says so.
pub fn derivations_are_seen()
    ensures { DerivationsAreSeen }
{}

/// Each place has a report, over edges that go forward.
pub fn reports_exist()
    ensures { ReportsExist }
{}

/// The laws at a grammar of lists.
pub fn reports_apply()
    ensures { ReportsApply }
{}
