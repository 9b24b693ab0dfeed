//! Laws about the definitions only. Each is a function that does nothing: its contract is the law.
ghost use Rattle.cmr_tools.specs.Laws.{FaultsAreOfFiles};
ghost use Rattle.cmr_tools.specs.ReportLaws.{ReportsAreAlike, ReportsAreOne, WorkersChangeNothing};

/// For all texts, a report with the status of a text fault is the line on a file that the tool reads.
pub fn faults_are_of_files()
    ensures { FaultsAreOfFiles }
{}

/// Two reports on the same texts have the same status and the same bytes of standard output, and their files can differ only in which
/// networks realise a matrix. They are equal if no file is written that can hold a network: a tree of `tu` or `regular`, or a graph.
pub fn one_report()
    ensures alike { ReportsAreAlike }
    ensures one { ReportsAreOne }
{}

/// The number of workers does not affect a report.
pub fn workers_change_nothing()
    ensures { WorkersChangeNothing }
{}
