// Chunks of candidates.
ghost use Rattle.std.specs.Prelude.{◌≤◌, length, IfOk};
ghost use Rattle.gq_rules_calendar.specs.Gregorian.{gregorian};
ghost use Rattle.gq_workers.specs.Running.{GoneThrough, IsEmpty, IsShaped, IsWork, come};

use crate::ahead::read_ahead;
use crate::candidate::try_one;
use crate::found::MatchBuffer;
use crate::rounds::Work;
use gq_base::{List, OutOfMemory};
use gq_eval_context::BlockContext;
use gq_exec_contribute::Stop;
use gq_graph::Steps;
use gq_index::Cursor;
use std::alloc::Global;

/// Tries the candidates from `start` up to `end` in order, or up to the first that faults, and returns its place and
/// fault. Their contributions wait. The room is for numbers of what is read ahead.
pub(crate) fn try_chunk(
    alloc: Global,
    work: &Work<'_>,
    over: &BlockContext<'_>,
    start: u64,
    end: u64,
    room: &mut List<u32>,
    found: &mut MatchBuffer,
) -> Result<Option<(u64, Stop)>, OutOfMemory>
    requires forward { start ≤ end }
    requires within { end ≤ length work.now.candidates }
    requires work { IsWork over.now work.now }
    requires empty { IsEmpty found.old }
    requires shaped { IsShaped (length over.now.vertices) found.old }
    ensures { IfOk result (GoneThrough (come gregorian over.now work.now) work.now.candidates over.now start end found.old found.new) }
{
    let mut cursor = Cursor::new();
    let mut evaluated = 0u32;
    for place in start..end {
        read_ahead(work, over, start, place, end, room)?;
        let candidate = work.candidates.near(place, &mut cursor, &mut Steps::new());
        match try_one(alloc, work, over, &candidate, &mut evaluated, found)? {
            Some(fault) => return Ok(Some((place, fault))),
            None => {}
        }
    }
    Ok(None)
}
