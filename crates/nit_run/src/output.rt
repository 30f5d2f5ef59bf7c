//! The files that a run puts, by what they hold.

ghost use Rattle.std.specs.Prelude.{◌≡◌, ◌≤◌, IsTrue, length, take};
ghost use Rattle.nit_run.specs.Terms.{events_name, is_label, label_text, output_name, script_name};

use nit_glyph::Label;
use nit_report::write::{number, text};
use nit_rounds::{PictureName, SHOT_NAME_BYTES, shot_name_into};

/// The most bytes that a label has.
const MAX_LABEL: usize = 20;

/// The most bytes that the name of a file has that a run puts.
pub const OUTPUT_NAME_BYTES: usize = 31;

/// A file that a run puts.
#[derive(Clone, Copy, Debug)]
pub enum Output {
    /// The picture of this name.
    Picture(PictureName),
    /// The events of the client of this label.
    Events(LabelBytes),
    Journal,
    /// The configuration of a generated run.
    GeneratedConfig,
    /// The script of this client of a generated run.
    GeneratedScript(u32),
    /// The input script of a generated run.
    GeneratedInput,
    /// The film of a region.
    Film,
    /// The clip list.
    Clips,
    /// The journal of an inner run.
    InnerJournal,
}

impl Output {
    /// Writes the name of the file to the front of `out`, which has 31 bytes, and answers where it
    /// ends.
    pub fn name_into(&self, out: &mut [u8]) -> usize
        requires { length out.old ≡ 31 }
        ensures end { result ≤ length out.new }
        ensures name { take result out.new ≡ output_name self.now }
    {
        match self {
            Output::Picture(PictureName::Shot(shot)) => {
                shot_name_into(&mut out[..SHOT_NAME_BYTES], *shot)
            }
            Output::Picture(PictureName::Final) => text(out, 0, b"final.ppm"),
            Output::Events(label) => events_name_into(out, label.as_bytes()),
            Output::Journal => text(out, 0, b"journal.txt"),
            Output::GeneratedConfig => text(out, 0, b"gen.toml"),
            Output::GeneratedScript(client) => script_name_into(out, *client),
            Output::GeneratedInput => text(out, 0, b"gen.in"),
            Output::Film => text(out, 0, b"capture.ncap"),
            Output::Clips => text(out, 0, b"clip.txt"),
            Output::InnerJournal => text(out, 0, b"inner-journal.txt"),
        }
    }
}

/// Writes the name of the events of the client of this label to the front of `out`, and answers
/// where it ends.
fn events_name_into(out: &mut [u8], label: &[u8]) -> usize
    requires out { length out.old ≡ 31 }
    requires label { length label.now ≤ 20 }
    ensures end { result ≤ length out.new }
    ensures name { take result out.new ≡ events_name label.now }
{
    let at = text(out, 0, b"events-");
    let at = text(out, at, label);
    text(out, at, b".txt")
}

/// Writes the name of the script of this client of a generated run to the front of `out`, and
/// answers where it ends.
fn script_name_into(out: &mut [u8], client: u32) -> usize
    requires { length out.old ≡ 31 }
    ensures end { result ≤ length out.new }
    ensures name { take result out.new ≡ script_name client }
{
    let at = text(out, 0, b"g");
    let at = number(out, at, client);
    text(out, at, b".nit")
}

/// The bytes of a label, as a plain value: the first `length` of them are its text.
#[derive(Clone, Copy, Debug)]
pub struct LabelBytes {
    pub bytes: [u8; MAX_LABEL],
    pub length: usize,
}

impl LabelBytes {
    /// The bytes of this label.
    pub fn new(label: &Label) -> LabelBytes
        ensures text { label_text result ≡ label.now }
        ensures label { IsTrue (is_label (label_text result)) }
    {
        let text = label.as_bytes();
        let mut bytes = [0; MAX_LABEL];
        bytes[..text.len()].copy_from_slice(text);
        LabelBytes {
            bytes,
            length: text.len(),
        }
    }

    /// The text of the label.
    pub fn as_bytes(&self) -> &[u8]
        ensures text { result.now ≡ label_text self.now }
        ensures short { length result.now ≤ 20 }
    {
        &self.bytes[..self.length.min(MAX_LABEL)]
    }
}
