//! How the work of a command comes to its end, and at which file.

ghost use Rattle.std.specs.Prelude.{◌≡◌, ◌≤◌, length};
ghost use Rattle.nit_setup.specs.Terms.{IsNameOf, most_file_name, script_text};

use nit_config::ConfigError;
use nit_run::Output;

/// The most bytes that the name of a script has.
const MAX_NAME: usize = 255;

/// Why a file is refused.
#[derive(Clone, Copy, Debug)]
pub enum Fault {
    /// The bytes are no configuration.
    BadConfig(ConfigError),
    /// The configuration has too many bytes.
    LongConfig,
    /// This line of the script, from 1, is the first that is refused.
    BadLine(u32),
    /// The script has too many bytes or lines.
    TooLong,
    /// The script has another number of phases than the first client's.
    PhasesDiffer,
    /// The journal has too many bytes.
    LongJournal,
    /// This line of the journal, from 1, is the first that is refused.
    BadEntry(u32),
    /// This entry of the journal, from 1, is the first with which it is none of a run.
    NotARun(u32),
    /// The frames of the run of this configuration are too long for the script that is to show
    /// them.
    FramesTooLong,
}

/// How the work came to its end, before the line is said.
#[derive(Clone, Copy, Debug)]
pub enum End {
    /// The words are no command.
    Usage,
    /// A file could not be read.
    ReadFault,
    /// A file was read, and is refused.
    Refused(Fault),
    /// All files were read and each is valid, and the files of two configurations do not fit
    /// together.
    Unfit(Fault),
    /// The region that is to be filmed has no pixels, or does not lie on the screen.
    Outside,
    /// A file could not be put.
    WriteFault,
    NoMemory,
    /// All is put.
    Whole,
    /// The journal, which has so many entries, is one of a run.
    Audited(u32),
}

/// The name of the file that the work ended at.
#[derive(Clone, Copy, Debug)]
pub enum StopName {
    /// There is no file.
    Nothing,
    /// The first file that the words name.
    First,
    /// The second file that the words name.
    Second,
    /// This script of a configuration.
    Script(ScriptName),
    /// The clip script of the client with this script.
    ClipsOf(ScriptName),
    /// A file that a run puts.
    Put(Output),
}

/// The name of a script of a configuration, as a plain value: the first `length` of the bytes are
/// its text.
#[derive(Clone, Copy, Debug)]
pub struct ScriptName {
    pub bytes: [u8; MAX_NAME],
    pub length: usize,
}

impl ScriptName {
    /// The script of this name.
    pub fn new(name: &str) -> ScriptName
        requires { length name.now ≤ most_file_name }
        ensures { script_text result ≡ name.now }
    {
        let text = name.as_bytes();
        let mut bytes = [0; MAX_NAME];
        bytes[..text.len()].copy_from_slice(text);
        ScriptName {
            bytes,
            length: text.len(),
        }
    }

    /// The name.
    pub fn as_bytes(&self) -> &[u8]
        ensures { result.now ≡ script_text self.now }
    {
        &self.bytes[..self.length.min(MAX_NAME)]
    }
}

/// How the work came to its end, and the file that it ended at.
#[derive(Clone, Copy, Debug)]
pub struct Stop {
    pub end: End,
    pub name: StopName,
}

/// The work ended so, at no file.
pub fn nowhere(end: End) -> Stop
    ensures { (result.end ≡ end) × (result.name ≡ StopName.Nothing) }
{
    Stop {
        end,
        name: StopName::Nothing,
    }
}

/// The work ended at the first file that the words name.
pub fn at_first(end: End) -> Stop
    ensures { (result.end ≡ end) × (result.name ≡ StopName.First) }
{
    Stop {
        end,
        name: StopName::First,
    }
}

/// The work ended at the second file that the words name.
pub fn at_second(end: End) -> Stop
    ensures { (result.end ≡ end) × (result.name ≡ StopName.Second) }
{
    Stop {
        end,
        name: StopName::Second,
    }
}

/// The work ended at the script of this name.
pub fn at(end: End, script: &str) -> Stop
    requires { length script.now ≤ most_file_name }
    ensures { (result.end ≡ end) × IsNameOf result.name script.now }
{
    Stop {
        end,
        name: StopName::Script(ScriptName::new(script)),
    }
}
