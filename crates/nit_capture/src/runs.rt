//! The runs of a tile's pixels.

ghost use Rattle.std.specs.Prelude.{◌≡◌, ◌≤◌, ◌<◌, ◌*◌, ◌+◌, ◌==◌};
ghost use Rattle.nit_capture.specs.Terms.{All, IsWord, drop, flat_map, length, most_area};
ghost use Rattle.nit_capture.specs.Terms.{prefix_len, run_bytes, runs, slice_index, take};

/// Writes the runs of pixels in front of the bytes, and answers how many bytes these are.
pub fn write_runs(words: &[u32], bytes: &mut [u8]) -> usize
    requires few { length words.now ≤ most_area }
    requires words { All IsWord words.now }
    requires room { 4 * length words.now ≤ length bytes.old }
    ensures value { take result bytes.new ≡ flat_map run_bytes (runs words.now) }
    ensures within { result ≤ 4 * length words.now }
    ensures length { length bytes.new ≡ length bytes.old }
{
    let (mut at, mut end) = (0, 0);
    while at < words.len() {
        let more = more_of(&words[at..]);
        bytes[end..end + 4].copy_from_slice(&run(more, words[at]));
        at += 1 + more;
        end += 4;
    }
    end
}

/// How many pixels after the first one have its word, before the first that has another.
fn more_of(words: &[u32]) -> usize
    requires { 0 < length words.now }
    ensures value { result ≡ prefix_len (λ x. x == slice_index words.now 0) (drop 1 words.now) }
    ensures within { 1 + result ≤ length words.now }
{
    same_in_front(&words[1..], words[0])
}

/// How many words in front are this one.
fn same_in_front(words: &[u32], word: u32) -> usize
    ensures value { result ≡ prefix_len (λ x. x == word) words.now }
    ensures within { result ≤ length words.now }
{
    words.iter().take_while(|other| **other == word).count()
}

/// A run: its length less one, and its channels.
fn run(more: usize, word: u32) -> [u8; 4]
    requires more { more < most_area }
    requires word { IsWord word }
    ensures { result ≡ run_bytes (more, word) }
{
    [
        more as u8,
        (word / 0x10000) as u8,
        (word / 0x100 % 0x100) as u8,
        (word % 0x100) as u8,
    ]
}
