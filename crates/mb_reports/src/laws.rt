//! The laws of reports, each the contract of a function that does nothing.

ghost use Rattle.mb_reports.specs.Laws.{ReadReportIsWritten, WrittenReportIsRead};

/// Law: what is written of a report is read as the report.
pub fn written_report_is_read()
    ensures { WrittenReportIsRead }
{}

/// Law: a text that is read as a report is what is written of it, and the report is one.
pub fn read_report_is_written()
    ensures { ReadReportIsWritten }
{}
