use thiserror::Error;

/// Why bytes are no configuration.
///
/// Several may apply to one text. The answer is the first in the order of this list, over the whole
/// file: a value of another kind in the last client comes before a key that is not there in the
/// first.
#[derive(Clone, Copy, Debug, PartialEq, Eq, Error)]
pub enum ConfigError {
    /// The bytes are no TOML.
    #[error("syntax")]
    Syntax,
    /// A key of the format is there, and its value is of another kind.
    #[error("kind")]
    Kind,
    /// A required key is not there, or there is no client.
    #[error("missing")]
    Missing,
    /// A key is there that the format does not have in that place.
    #[error("unknown")]
    Unknown,
    /// There are more than 16 clients.
    #[error("too many")]
    TooMany,
    /// A number, the name of a script or a `focus` is outside its range, or the bar does not fit.
    #[error("range")]
    Range,
    /// The label of a client is no label.
    #[error("label")]
    Label,
    /// Two clients have the same label.
    #[error("twice")]
    Twice,
    /// Memory ran out.
    #[error("no memory")]
    NoMemory,
}
