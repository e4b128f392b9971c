// Covenants back to back: the run reader.
#![tactic(auto)]

pub mod archive;

ghost use Rattle.std.specs.Prelude.{◌≡◌};
ghost use Rattle.runs.specs.Run.{run_said};
ghost use Rattle.runs.specs.Covenants.{default_allowance, covenant_run, covenant_step};
ghost use Rattle.runs.specs.Paper.{run_step_paper, run_end_paper, run_start};

use covenants::{Accepted, Covenant};
use encoding::read::Cursor;
use refusal::Stop;

// A place in a run, and how many covenants came before it.
#[derive(Clone, Copy, PartialEq, Eq)]
pub struct Run {
    pub cursor: Cursor,
    pub count: usize,
}

// The refusal that ended a run, and how many covenants came before it.
#[derive(Clone, Copy, PartialEq, Eq)]
pub struct RunStop {
    pub stop: Stop,
    pub count: usize,
}

impl Run {
    // Document 01's allowance for each covenant of a run, where a caller names no other.
    pub const ALLOWANCE: usize = Covenant::MAX_ENCODED_SIZE;

    pub fn start() -> Run
        ensures { result ≡ run_start }
    {
        Run {
            cursor: Cursor { position: 0 },
            count: 0,
        }
    }

    // The next covenant, and the run after it; nothing at the end.
    pub fn next(self, s: &[u8]) -> Result<Option<(Accepted, Run)>, RunStop>
        ensures { run_step_paper self.count result ≡ covenant_step default_allowance s.now self.cursor.position self.count }
    {
        self.next_with_limit(s, Run::ALLOWANCE)
    }

    // The same under an allowance that the caller names.
    pub fn next_with_limit(self, s: &[u8], limit: usize) -> Result<Option<(Accepted, Run)>, RunStop>
        ensures { run_step_paper self.count result ≡ covenant_step limit s.now self.cursor.position self.count }
    {
        if self.cursor.position == s.len() {
            return Ok(None);
        }
        match Covenant::read(self.cursor, s, limit) {
            Ok((accepted, cursor)) => {
                let count = self.count.wrapping_add(1);
                Ok(Some((accepted, Run { cursor, count })))
            }
            Err(stop) => Err(RunStop {
                stop,
                count: self.count,
            }),
        }
    }
}

// A whole run, read to its end: how many covenants it has.
pub fn read_run(s: &[u8]) -> Result<usize, RunStop>
    ensures { run_end_paper result ≡ run_said (covenant_run default_allowance s.now) }
{
    read_run_with_limit(s, Run::ALLOWANCE)
}

// The same under an allowance for each covenant that the caller names.
pub fn read_run_with_limit(s: &[u8], limit: usize) -> Result<usize, RunStop>
    ensures { run_end_paper result ≡ run_said (covenant_run limit s.now) }
{
    let mut run = Run::start();
    while let Some((_, after)) = run.next_with_limit(s, limit)? {
        run = after;
    }
    Ok(run.count)
}
