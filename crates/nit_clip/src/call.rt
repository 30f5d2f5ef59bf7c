use nit_events::Text;

/// What a session asks of the clipboard.
#[derive(Clone, Copy, Debug, PartialEq, Eq)]
pub enum ClipCall {
    /// The clipboard holds this text.
    Copy(Text),
    /// The text that the clipboard holds.
    Paste,
}

/// The clipboard's answer.
#[derive(Clone, Copy, Debug, PartialEq, Eq)]
pub enum ClipReply {
    Copied,
    /// The text that was copied last.
    Pasted(Text),
    /// No text was copied yet.
    Empty,
    /// The session has not the focus.
    NotFocused,
}

/// A call with its answer.
#[derive(Clone, Copy, Debug, PartialEq, Eq)]
pub struct ClipEntry {
    /// How many entries of the journal stand before it: its place.
    pub at: u32,
    /// The session that calls, from 0.
    pub sid: u32,
    /// The session that had the focus there.
    pub focus: Option<u32>,
    pub call: ClipCall,
    pub reply: ClipReply,
}
