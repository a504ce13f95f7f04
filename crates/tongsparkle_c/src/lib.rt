// The C side of the monitoring service's call: the export that include/tongsparkle.h declares, with the clause of `tongsparkle`'s own call.
// A crate of its own: no crate can stand on a static library, so what others use is in `tongsparkle`. C gets a number, and no enum.
#![tactic(auto)]

ghost use Rattle.tongsparkle.specs.Report.{Reported};

// Replays the trace, writes the report of what was accepted, and gives the number of document 01.
#[unsafe(no_mangle)]
pub extern "C" fn tongsparkle_replay(trace: &[u8], report: &mut [u8]) -> u32
    ensures { Reported trace.now report.old result report.new }
{
    tongsparkle::tongsparkle_replay(trace, report)
}
