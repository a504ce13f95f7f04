// The monitoring service's call: a trace and a report, each as bytes of the caller's, and the number back. include/tongsparkle.h is its C side.
#![tactic(auto)]

ghost use Rattle.std.specs.Prelude.{◌≡◌};
ghost use Rattle.std.specs.List.{flat_map};
ghost use Rattle.records.specs.Stored.{over};
ghost use Rattle.words.specs.Calls.{standing_of};
ghost use Rattle.words.specs.Spelled.{people};
ghost use Rattle.tongsparkle.specs.Report as Report;
ghost use Rattle.tongsparkle.specs.Report.{Reported};

use machine::RUN;
use words::Standing;

// What stands of a process: six numbers of four bytes.
const ROW: usize = 24;

// The room that a report needs, whatever the trace: that of as many processes as there can be.
const ROOM: usize = machine::MOST_PROCESSES as usize * ROW;

// The number for a report with less room: the C service gets numbers.
const NO_ROOM: u32 = 14;

// What the report shows of a process: six numbers, each big-endian.
#[tactic(auto, unfolding(crate::specs::Report::row_of, crate::specs::Report::word))]
fn row(s: Standing) -> [[u8; 4]; 6]
    ensures { flat_map (λ w. w) result ≡ Report.row_of s }
{
    [s.round, s.sending, s.collecting, s.pending, s.idle, s.reach].map(u32::to_be_bytes)
}

// What it shows of the processes of a run, one after the other.
#[tactic(auto, using(words::proofs::Reading::people_most, crate::proofs::Bytes::next_row), unfolding(crate::specs::Report::rows_below, records::specs::Stored::over))]
fn put_rows(report: &mut [u8; ROOM], run: &[u32; RUN])
    ensures { report.new ≡ over (Report.rows_below (people run.now) (standing_of run.now)) report.old }
{
    for p in 0..machine::size(run) as u8 {
        let at = ROW * usize::from(p);
        report[at..at + ROW].copy_from_slice(row(machine::site(run, p)).as_flattened());
    }
}

// Replays the trace, writes the report of what was accepted, and gives the number of document 01, since C gets numbers.
pub fn tongsparkle_replay(trace: &[u8], report: &mut [u8]) -> u32
    ensures { Reported trace.now report.old result report.new }
{
    let Some(rows) = report.first_chunk_mut::<ROOM>() else {
        return NO_ROOM;
    };
    let mut run = [0u32; RUN];
    let ending = trace::replay(&mut run, trace);
    put_rows(rows, &run);
    trace::number(ending)
}
