// The archive import: an archive is a run of covenants, and all of it is read.
ghost use Rattle.std.specs.Prelude.{◌≡◌};
ghost use Rattle.runs.specs.Run.{run_said};
ghost use Rattle.runs.specs.Covenants.{default_allowance, covenant_run};
ghost use Rattle.runs.specs.Paper.{run_end_paper};

use crate::{RunStop, read_run};

pub fn import_archive(s: &[u8]) -> Result<usize, RunStop>
    ensures { run_end_paper result ≡ run_said (covenant_run default_allowance s.now) }
{
    read_run(s)
}
