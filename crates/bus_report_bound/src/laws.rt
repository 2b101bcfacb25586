//! Laws of the reports of runs. The functions do nothing: each one's contract is the law.
ghost use Rattle.bus_report_bound.specs.Laws.{FewRunsBack, DataStands, ReportFits};

/// The bytes that come back in a run of a script have few runs of one byte, so that its report is short.
pub fn few_runs_back()
    ensures few { FewRunsBack }
    ensures stands { DataStands }
    ensures fits { ReportFits }
{}
