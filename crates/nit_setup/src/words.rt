//! The words of the command line.

ghost use Rattle.std.specs.Prelude.{◌<◌, ◌≡◌, IfSome, ◌≤◌};
ghost use Rattle.nit_setup.specs.Terms.{IsReadAlone, IsReadAs, IsReadBeside, asks_alone};
ghost use Rattle.nit_setup.specs.Terms.{asks_beside, asks_for, capture, capture_command, command};
ghost use Rattle.nit_setup.specs.Terms.{first_name, gen, most_run_height, most_run_width};
ghost use Rattle.nit_setup.specs.Terms.{natural_of, number_end, number_up_to, pair_of, run_of};
ghost use Rattle.nit_setup.specs.Terms.{second_name, still, still_of, texts};

use nit_rect::{MOST_RUN_HEIGHT, MOST_RUN_WIDTH};
use nit_run::Region;
use nit_script::natural;

/// What the words ask for.
#[derive(Clone, Copy, Debug)]
pub enum Asked<'a> {
    /// A command that starts no thread.
    Alone(AskedAlone<'a>),
    /// A command that starts threads.
    Beside(AskedBeside<'a>),
}

/// A command that is asked for and starts no thread.
#[derive(Clone, Copy, Debug)]
pub enum AskedAlone<'a> {
    /// A picture of this size, made of the script of this name.
    Still {
        width: u32,
        height: u32,
        script: &'a str,
    },
    /// The run of the configuration of this name, by turns.
    Turns {
        config: &'a str,
    },
    /// The audit of the journal of this name, by the configuration of this name.
    Audit {
        config: &'a str,
        journal: &'a str,
    },
}

/// A command that is asked for and starts threads: each client has one of its own.
#[derive(Clone, Copy, Debug)]
pub enum AskedBeside<'a> {
    /// The run of the configuration of this name.
    Run { config: &'a str },
    /// The generated run of this number.
    Gen { number: u32 },
    /// The run of the configuration of this name, with a clip script for each client.
    Clip { config: &'a str },
    /// The run of the configuration of this name, and the film of this region.
    Capture { config: &'a str, region: Region },
    /// The run of the configuration of the first name, whose first client shows what the run of the
    /// configuration of the second name shows.
    Nested { outer: &'a str, inner: &'a str },
}

impl<'a> Asked<'a> {
    /// The first file that the words name, with an empty name where they name none.
    pub fn first(self) -> &'a str
        ensures { result.now ≡ first_name (asks_for self.entry) }
    {
        match self {
            Asked::Alone(command) => command.first(),
            Asked::Beside(command) => command.first(),
        }
    }

    /// The second file that the words name, with an empty name where they name none.
    pub fn second(self) -> &'a str
        ensures { result.now ≡ second_name (asks_for self.entry) }
    {
        match self {
            Asked::Alone(command) => command.second(),
            Asked::Beside(command) => command.second(),
        }
    }
}

impl<'a> AskedAlone<'a> {
    /// The first file that the words name.
    fn first(self) -> &'a str
        ensures { result.now ≡ first_name (asks_alone self.entry) }
    {
        match self {
            AskedAlone::Still { script, .. } => script,
            AskedAlone::Turns { config } | AskedAlone::Audit { config, .. } => config,
        }
    }

    /// The second file that the words name, with an empty name where they name none.
    fn second(self) -> &'a str
        ensures { result.now ≡ second_name (asks_alone self.entry) }
    {
        match self {
            AskedAlone::Audit { journal, .. } => journal,
            AskedAlone::Still { .. } | AskedAlone::Turns { .. } => "",
        }
    }
}

impl<'a> AskedBeside<'a> {
    /// The first file that the words name, with an empty name where they name none.
    fn first(self) -> &'a str
        ensures { result.now ≡ first_name (asks_beside self.entry) }
    {
        match self {
            AskedBeside::Run { config } | AskedBeside::Clip { config } => config,
            AskedBeside::Gen { .. } => "",
            AskedBeside::Capture { config, .. } => config,
            AskedBeside::Nested { outer, .. } => outer,
        }
    }

    /// The second file that the words name, with an empty name where they name none.
    fn second(self) -> &'a str
        ensures { result.now ≡ second_name (asks_beside self.entry) }
    {
        match self {
            AskedBeside::Nested { inner, .. } => inner,
            AskedBeside::Run { .. } | AskedBeside::Gen { .. } => "",
            AskedBeside::Clip { .. } | AskedBeside::Capture { .. } => "",
        }
    }
}

/// What the words ask for. None where they are no command.
pub fn parse_words(words: &[String]) -> Option<Asked<'_>>
    ensures { IsReadAs (command (texts words.now)) result }
{
    if let Some(command) = parse_alone(words) {
        return Some(Asked::Alone(command));
    }
    let command = parse_beside(words)?;
    Some(Asked::Beside(command))
}

/// What the words ask for, where this starts no thread. None where it starts threads, and where the
/// words are no command.
pub fn parse_alone(words: &[String]) -> Option<AskedAlone<'_>>
    ensures { IsReadAlone (command (texts words.now)) result }
{
    match words {
        [verb, config] => turns_of(verb.as_str(), config.as_str()),
        [verb, config, journal] => audit_of(verb.as_str(), config.as_str(), journal.as_str()),
        [verb, width, height, script] => {
            still_of(
                verb.as_str(),
                width.as_str(),
                height.as_str(),
                script.as_str(),
            )
        }
        _ => None,
    }
}

/// What the words ask for, where this starts threads. None where it starts no thread, and where the
/// words are no command.
pub fn parse_beside(words: &[String]) -> Option<AskedBeside<'_>>
    ensures { IsReadBeside (command (texts words.now)) result }
{
    match words {
        [verb, word] => run_of(verb.as_str(), word.as_str()),
        [verb, outer, inner] => nested_of(verb.as_str(), outer.as_str(), inner.as_str()),
        [verb, config, x, y, w, h] => capture_of(
            verb.as_str(),
            config.as_str(),
            x.as_str(),
            y.as_str(),
            w.as_str(),
            h.as_str(),
        ),
        _ => None,
    }
}

/// The run by turns that this verb and this word ask for.
fn turns_of<'a>(verb: &str, config: &'a str) -> Option<AskedAlone<'a>>
    ensures { IsReadAlone (run_of verb.now config.entry.now) result }
{
    if verb == "turns" {
        Some(AskedAlone::Turns { config })
    } else {
        None
    }
}

/// The audit that this verb and these words ask for.
fn audit_of<'a>(verb: &str, config: &'a str, journal: &'a str) -> Option<AskedAlone<'a>>
    ensures { IsReadAlone (pair_of verb.now config.entry.now journal.entry.now) result }
{
    if verb == "audit" {
        Some(AskedAlone::Audit { config, journal })
    } else {
        None
    }
}

/// The picture that this verb and these words ask for.
fn still_of<'a>(verb: &str, width: &str, height: &str, script: &'a str) -> Option<AskedAlone<'a>>
    ensures { IsReadAlone (still_of verb.now width.now height.now script.entry.now) result }
{
    if verb == "still" {
        still(width, height, script)
    } else {
        None
    }
}

/// The run with threads that this verb and this word ask for.
fn run_of<'a>(verb: &str, word: &'a str) -> Option<AskedBeside<'a>>
    ensures { IsReadBeside (run_of verb.now word.entry.now) result }
{
    if verb == "run" {
        return Some(AskedBeside::Run { config: word });
    }
    if verb == "gen" {
        return generated(word);
    }
    if verb == "clip" {
        Some(AskedBeside::Clip { config: word })
    } else {
        None
    }
}

/// The run of one configuration in another that this verb and these words ask for.
fn nested_of<'a>(verb: &str, outer: &'a str, inner: &'a str) -> Option<AskedBeside<'a>>
    ensures { IsReadBeside (pair_of verb.now outer.entry.now inner.entry.now) result }
{
    if verb == "nested" {
        Some(AskedBeside::Nested { outer, inner })
    } else {
        None
    }
}

/// The film that this verb and these words ask for.
fn capture_of<'a>(
    verb: &str,
    config: &'a str,
    x: &str,
    y: &str,
    w: &str,
    h: &str,
) -> Option<AskedBeside<'a>>
    ensures { IsReadBeside
        (capture_command verb.now config.entry.now x.now y.now w.now h.now) result }
{
    if verb == "capture" {
        captured(config, x, y, w, h)
    } else {
        None
    }
}

/// A picture of the size that these words spell, made of this script.
fn still<'a>(width: &str, height: &str, script: &'a str) -> Option<AskedAlone<'a>>
    ensures { IsReadAlone (still (number_up_to most_run_width width.now)
        (number_up_to most_run_height height.now) script.entry.now) result }
{
    let width = size(width, MOST_RUN_WIDTH)?;
    let height = size(height, MOST_RUN_HEIGHT)?;
    Some(AskedAlone::Still {
        width,
        height,
        script,
    })
}

/// The generated run of the number that this word spells.
fn generated<'a>(number: &str) -> Option<AskedBeside<'a>>
    ensures { IsReadBeside (gen (natural_of number.now)) result }
{
    let number = whole_number(number)?;
    Some(AskedBeside::Gen { number })
}

/// The run of the configuration of this name, and the film of the region that the other words
/// spell.
fn captured<'a>(config: &'a str, x: &str, y: &str, w: &str, h: &str) -> Option<AskedBeside<'a>>
    ensures { IsReadBeside (capture config.entry.now (natural_of x.now) (natural_of y.now)
        (natural_of w.now) (natural_of h.now)) result }
{
    let x = whole_number(x)?;
    let y = whole_number(y)?;
    let w = whole_number(w)?;
    let h = whole_number(h)?;
    Some(AskedBeside::Capture {
        config,
        region: Region { x, y, w, h },
    })
}

/// The number below 10^9 that the word spells.
fn whole_number(word: &str) -> Option<u32>
    ensures number { result ≡ natural_of word.now }
    ensures range { IfSome result (λ n. n < number_end) }
{
    natural(word.as_bytes())
}

/// The number of 1 up to `most` that the word spells.
fn size(word: &str, most: u32) -> Option<u32>
    requires { most ≤ most_run_width }
    ensures size { result ≡ number_up_to most word.now }
    ensures range { IfSome result (λ n. (0 < n) × (n ≤ most)) }
{
    let n = natural(word.as_bytes())?;
    if 1 <= n && n <= most { Some(n) } else { None }
}
