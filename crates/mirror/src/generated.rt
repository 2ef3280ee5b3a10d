//! The run of a generated transcript.
ghost use Rattle.std.specs.Prelude.{◌≡◌, ◌≤◌, IfOk, IfErr};
ghost use Rattle.transcript_generator.specs.Generated.{most_routes};
ghost use Rattle.mirror.specs.Generating.{generated_report};

use crate::program::run;
use session_model::{Report, RunFault, Settings};
use std::alloc::Global;
use transcript_generator::gen_text;
use transcript_io::{BytesSource, NullSink};

/// Runs the generated transcript of so many routes under the usual settings. Its text is dropped. No fault comes but
/// NoMemory.
pub fn run_generated(alloc: Global, count: u32) -> Result<Report, RunFault>
    requires { count ≤ most_routes }
    ensures report { IfOk result (λ report. report ≡ generated_report count) }
    ensures only { IfErr result (λ fault. fault ≡ RunFault.NoMemory) }
{
    let text = gen_text(alloc, count)?;
    let mut input = BytesSource::new(text.into_vec());
    let mut out = NullSink;
    let settings = Settings::usual();
    run(alloc, &mut input, &mut out, &settings)
}
