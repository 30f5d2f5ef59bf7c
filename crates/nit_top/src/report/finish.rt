//! How a command comes to its end.

ghost use Rattle.std.specs.Prelude.{◌≡◌, [], IfSome};
ghost use Rattle.nit_top.specs.Terms.{code_of, end_of_run, fault_code, status_of};

use nit_events::Entry;
use nit_perform::{PutFault, Ran};
use nit_setup::{End, Fault, Stop, StopName, nowhere};
use nit_store::PutError;
use std::alloc::Global;

/// What a call of the program answers.
#[derive(Debug, Drop)]
pub struct Done {
    /// 0: all was done. 2: the words are no command. 3: a file could not be read. 4: a file could
    /// not be put, or the line not said. 5: the configuration is refused. 6: a script is refused.
    /// 7: memory ran out. 8: the text of a journal is refused. 9: a journal is none of a run. 10:
    /// the region of a film does not lie on the screen. 11: the frames of an inner run are too long
    /// for a script.
    pub status: u8,
    /// The whole journal where the run was begun, and no entry otherwise.
    pub journal: Vec<Entry>,
}

/// What the work of a command leaves.
#[derive(Drop)]
pub struct Worked {
    pub stop: Stop,
    /// The journal of the run, which is empty where none was begun.
    pub journal: Vec<Entry>,
    /// How many clients the run had.
    pub clients: usize,
    /// How many pictures were taken, the last one counted.
    pub frames: usize,
}

impl Worked {
    /// What the work leaves after a run, which had so many clients.
    pub fn after(ran: Ran, clients: usize) -> Worked
        ensures end { result.stop.end ≡ end_of_run ran.fault }
        ensures name { IfSome ran.fault (λ f. result.stop.name ≡ StopName.Put f.file) }
        ensures journal { result.journal.items ≡ ran.journal.items }
        ensures clients { result.clients ≡ clients }
        ensures frames { result.frames ≡ ran.frames }
    {
        Worked {
            stop: stop_after(ran.fault),
            journal: ran.journal,
            clients,
            frames: ran.frames,
        }
    }
}

/// The work ended before a run was begun.
pub fn ended_before_run(alloc: Global, stop: Stop) -> Worked
    ensures stop { result.stop ≡ stop }
    ensures journal { result.journal.items ≡ [] }
{
    Worked {
        stop,
        journal: Vec::new(alloc),
        clients: 0,
        frames: 0,
    }
}

/// The status by why a file is refused.
fn fault_code(fault: Fault) -> u8
    ensures { result ≡ fault_code fault }
{
    match fault {
        Fault::BadConfig(_) | Fault::LongConfig => 5,
        Fault::BadLine(_) | Fault::TooLong | Fault::PhasesDiffer => 6,
        Fault::LongJournal | Fault::BadEntry(_) => 8,
        Fault::NotARun(_) => 9,
        Fault::FramesTooLong => 11,
    }
}

/// The status by the end of the work, where the line is said.
fn code(end: End) -> u8
    ensures { result ≡ code_of end }
{
    match end {
        End::Whole | End::Audited(_) => 0,
        End::Usage => 2,
        End::ReadFault => 3,
        End::WriteFault => 4,
        End::Refused(fault) | End::Unfit(fault) => fault_code(fault),
        End::NoMemory => 7,
        End::Outside => 10,
    }
}

/// The status by the end of the work and by what the saying of the line answered.
pub fn status(end: End, said: Result<(), PutError>) -> u8
    ensures { result ≡ status_of (code_of end) said }
{
    let code = code(end);
    match said {
        Ok(()) => code,
        Err(PutError::NoMemory) => 7,
        Err(PutError::Failed) if code == 0 => 4,
        Err(PutError::Failed) => code,
    }
}

/// How the work ends after a run, by the put that was refused.
pub fn stop_after(fault: Option<PutFault>) -> Stop
    ensures end { result.end ≡ end_of_run fault }
    ensures name { IfSome fault (λ f. result.name ≡ StopName.Put f.file) }
{
    let Some(fault) = fault else {
        return nowhere(End::Whole);
    };
    Stop {
        end: match fault.error {
            PutError::Failed => End::WriteFault,
            PutError::NoMemory => End::NoMemory,
        },
        name: StopName::Put(fault.file),
    }
}
