//! Laws about the definitions only. Each is a function that does nothing: its contract is the law.
ghost use Rattle.cmr_front.specs.AlikeReports.{HasAlikeReports};
ghost use Rattle.cmr_front.specs.Tool.{HasOneReport};
ghost use Rattle.cmr_classes.specs.AlikeNetworks.{HoldAlikeNetworks};
ghost use Rattle.cmr_classes.specs.GraphMatrix.{test_tool};
ghost use Rattle.cmr_classes.specs.GraphicNetwork.{TestOrder};
ghost use Rattle.cmr_classes.specs.GraphsGiveBack.{GraphFilesGiveBack, GraphsGiveBack, HeldGraphsGiveBack};
ghost use Rattle.cmr_classes.specs.SeriesParallel.{SeriesParallelOrder, series_parallel_tool};
ghost use Rattle.cmr_classes.specs.declared.tools.graphic_network.TestedProperty.{TestedProperty};

/// Two reports of `graphic` or `network` on the same text can differ only in which network shows the property.
pub fn reports_are_alike()
    ensures test { (p : TestedProperty) (o : TestOrder)
        → HasAlikeReports HoldAlikeNetworks (test_tool p o) }
{}

/// `series-parallel` has one report, which the text determines.
pub fn reports_are_one()
    ensures series_parallel { (o : SeriesParallelOrder) → HasOneReport (series_parallel_tool o) }
{}

/// If `graphic` or `network` without `-t` says yes for a matrix and writes a graph, the same tool with `-c` writes the
/// canonical dense text of the matrix from that graph, and can report nothing else. This holds for the text, and for the
/// file when the text is in it. For the file, the matrix is the matrix whose text was in the file that was read.
pub fn graphs_give_back()
    ensures texts { GraphsGiveBack }
    ensures files { GraphFilesGiveBack }
    ensures held { HeldGraphsGiveBack }
{}
