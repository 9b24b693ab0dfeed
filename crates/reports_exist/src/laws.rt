//! Laws over the definitions. Each function does nothing: its contract is the law.
ghost use Rattle.reports_exist.specs.AnsweredRuns.{RunsHaveOneAnswer};
ghost use Rattle.reports_exist.specs.DecidedMatrices.{TuAcceptsNetworks, TuDecidesWithinBudget, TuKeepsAnswers, TuRunsDecide};
ghost use Rattle.reports_exist.specs.Laws.{OrdersHaveReports, RunsHaveReports};

use tree_type::laws::one_answer;

/// No order whose numbers are in their ranges is without a report on some texts, one for each of its files.
pub fn orders_have_reports()
    ensures { OrdersHaveReports }
{
    one_answer();
}

/// No arguments of the command line are without a report on the contents of the names, if the files of their order exist.
pub fn runs_have_reports()
    ensures { RunsHaveReports }
{
    one_answer();
}

/// `tu` decides each matrix whose shorter side is within the budget of lines: the status of a report, and of a run that answers, is 0 if
/// and only if the matrix is totally unimodular, and otherwise 1. On network matrices and their transposes the status is 0 for every
/// budget. Without pivots a larger budget keeps each status but 6.
pub fn tu_decides()
    ensures within_budget { TuDecidesWithinBudget }
    ensures runs { TuRunsDecide }
    ensures networks { TuAcceptsNetworks }
    ensures larger_budget { TuKeepsAnswers }
{}

/// Two runs of one order, over any devices, that read the same bytes and end with a status of an answer have the same status and give
/// the same bytes to standard output.
pub fn runs_have_one_answer()
    ensures { RunsHaveOneAnswer }
{}
