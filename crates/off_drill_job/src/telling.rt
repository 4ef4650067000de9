ghost use Rattle.off_jobs.specs.Ending.{Tells};
ghost use Rattle.off_drill_job.specs.Telling.{drill_end};

use crate::drilling::Ended;
use off_drill_parts::summary_line;
use off_jobs::{tell, tell_undone};
use off_office::stay_closed;
use off_outside::Sink;

/// Tells what became of a drill, and answers the status, or 4 where the sink fails.
pub(crate) fn tell_end<W: Sink>(count: u32, ended: Ended, out: &mut W) -> u8
    ensures { Tells (drill_end count ended) result (W.seen out.old) (W.seen out.new) }
{
    match ended {
        Ended::Closed(err) => stay_closed(err, out),
        Ended::NotEmpty => tell(out, b"refused not-empty\n", 9),
        Ended::Broken(err) => tell_undone(err, out),
        Ended::Done(tally) => tell(out, summary_line(count, tally).as_slice(), 0),
    }
}
