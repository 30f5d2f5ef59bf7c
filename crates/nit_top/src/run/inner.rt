//! How an inner run ends the work.

ghost use Rattle.std.specs.Prelude.{◌≡◌, length, Err, Ok, None};
ghost use Rattle.nit_top.specs.Terms.{IsInnerEnd, IsRunnable, MayCome, by_turns, end_of_nest};
ghost use Rattle.nit_top.specs.Terms.{first_forbidden, frames_of, phases, run_files};

use nit_config::Config;
use nit_nested::NestError;
use nit_perform::{Inner, nest_run};
use nit_script::{Client, Input};
use nit_setup::{End, Fault};
use std::alloc::Global;

/// Runs the scripts of a configuration by turns, keeping its files back, and makes the script in
/// which this one shows the run's frames. This one has as many phases as there are frames, and
/// holds no line that may not stand there.
///
/// # Errors
///
/// `Unfit(FramesTooLong)` exactly where a `buffer` line, the lines of all frames and those of the
/// script are more than 65,536 together, and `NoMemory` where memory runs out.
pub fn run_inner(
    alloc: Global,
    config: &Config,
    scripts: &[Client],
    input: &Input,
    own: &Client,
) -> Result<Inner, End>
    requires runnable { IsRunnable (by_turns (run_files config.now scripts.now input.now)) }
    requires may { first_forbidden 1 own.now ≡ None }
    requires phases { phases own.now
        ≡ length (frames_of (run_files config.now scripts.now input.now)) }
    ensures { IsInnerEnd (run_files config.now scripts.now input.now) own.now result }
{
    match nest_run(alloc, config, scripts, input, own) {
        Ok(made) => Ok(made),
        Err(refusal) => Err(end_of_nest(refusal)),
    }
}

/// How the work ends where a frame or the script was refused. The script fits but for its length.
fn end_of_nest(refusal: NestError) -> End
    requires { MayCome refusal }
    ensures { result ≡ end_of_nest refusal }
{
    match refusal {
        NestError::TooLong => End::Unfit(Fault::FramesTooLong),
        NestError::NoMemory => End::NoMemory,
        NestError::Bad { .. } | NestError::Phases => unreachable!(),
    }
}
