//! Clip scripts that are refused.

use crate::cases::assert_cases;

#[test]
fn clip_scripts(rt: HostRuntime) {
    assert_cases(&rt, rt.alloc(), CASES);
}

const CASES: &str = r#"

base refused
words clip, pair.toml
file pair.toml CLIP_PAIR
file pa.nit LEFT
file pb.nit RIGHT
file clip.in CLICK
file pa.nit.clip COPIES
file pb.nit.clip PASTES
asked =pair.toml pa.nit pb.nit clip.in pa.nit.clip
there =pair.toml pa.nit pb.nit clip.in pa.nit.clip pb.nit.clip
entries 0

case clip scripts are judged behind all other scripts, in order
with refused
file pa.nit.clip =paste\nbuffer 4 4\n
file pb.nit.clip =paste\n
ends 6 =nitpicker: pa.nit.clip: line 2: bad script\n

case a copied text without its sign in front
with refused
file pa.nit.clip =copy hi\n
ends 6 =nitpicker: pa.nit.clip: line 1: bad script\n

case phases of the first clip script come before a bad line of the second
with refused
file pa.nit.clip =paste\n
file pb.nit.clip =Paste\n
ends 6 =nitpicker: pa.nit.clip: phases differ\n

case a second clip script with a phase too many
with refused
file pb.nit.clip =phase\nphase\nphase\n
ends 6 =nitpicker: pb.nit.clip: phases differ\n
asked =pair.toml pa.nit pb.nit clip.in pa.nit.clip pb.nit.clip

case a bad line of the input script comes before one of a clip script
with refused
file clip.in =Phase\n
file pa.nit.clip =Paste\n
ends 6 =nitpicker: clip.in: line 1: bad script\n
asked =pair.toml pa.nit pb.nit clip.in

case phases of the input script come before a bad line of a clip script
with refused
file clip.in =phase\n
file pa.nit.clip =Paste\n
ends 6 =nitpicker: clip.in: phases differ\n
asked =pair.toml pa.nit pb.nit clip.in

case a copy without a text
with refused
file pa.nit.clip =paste\ncopy\n
ends 6 =nitpicker: pa.nit.clip: line 2: bad script\n

case a blank behind the last word
with refused
file pa.nit.clip =paste \n
ends 6 =nitpicker: pa.nit.clip: line 1: bad script\n

case a blank in front of the first word
with refused
file pa.nit.clip = paste\n
ends 6 =nitpicker: pa.nit.clip: line 1: bad script\n

case two blanks between words
with refused
file pa.nit.clip =copy  =hi\n
ends 6 =nitpicker: pa.nit.clip: line 1: bad script\n

case an empty line
with refused
file pa.nit.clip =phase\n\n
ends 6 =nitpicker: pa.nit.clip: line 2: bad script\n

case no last line feed
with refused
file pa.nit.clip =paste
ends 6 =nitpicker: pa.nit.clip: line 1: bad script\n

case a copied text of 41 bytes
with refused
file pa.nit.clip =copy =12345678901234567890123456789012345678901\n
ends 6 =nitpicker: pa.nit.clip: line 1: bad script\n

case a copied text with a letter outside of ASCII
with refused
file pa.nit.clip =copy =ä\n
ends 6 =nitpicker: pa.nit.clip: line 1: bad script\n

case a client's call
with refused
file pa.nit.clip =phase\nview\n
ends 6 =nitpicker: pa.nit.clip: line 2: bad script\n

case one line too many
with refused
file pb.nit.clip LONG
ends 6 =nitpicker: pb.nit.clip: too long\n
asked =pair.toml pa.nit pb.nit clip.in pa.nit.clip pb.nit.clip

text LONG
65537 =paste\n

"#;
