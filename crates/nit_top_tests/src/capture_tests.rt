//! Films of the run of two clients.

use crate::cases::assert_cases;

#[test]
fn films(rt: HostRuntime) {
    assert_cases(&rt, rt.alloc(), CASES);
}

const CASES: &str = r#"

base film
words capture, two.toml, 0, 0, 4, 2
file two.toml CONFIG
file a.nit A
file b.nit B
file two.in INPUT
ends 0 =nitpicker: clients 2 entries 9 frames 2\n
asked FILMED
there FILMED

case the left half
with film
bytes capture.ncap =4E 43 41 50 04 00 02 00 01 01 00 00 00 07 00 00 FF 01 01 00 00 00 07 FF 00 00 00
whole JOURNAL

case the right half
with film
words capture, two.toml, 4, 0, 4, 2
bytes capture.ncap =4E 43 41 50 04 00 02 00 01 01 00 00 00 07 00 00 20 01 00 00 00
whole JOURNAL

base alone
words capture, alone.toml, 0, 0, 16, 17
file alone.toml TALL
file a.nit BLACK
file no.in =
ends 0 =nitpicker: clients 1 entries 4 frames 1\n
asked =alone.toml a.nit no.in final.ppm events-a.txt journal.txt capture.ncap
there =alone.toml a.nit no.in final.ppm events-a.txt journal.txt capture.ncap

case tiles of 16 by 16, 4 by 16, 16 by 2 and 4 by 2, with runs of 255 and of 256 pixels
with alone
words capture, alone.toml, 0, 0, 20, 18
file alone.toml LARGE
file a.nit ENDS
file no.in =phase\nshot\nphase\n
ends 0 =nitpicker: clients 1 entries 5 frames 2\n
asked =alone.toml a.nit no.in shot-1.ppm final.ppm events-a.txt journal.txt capture.ncap
there =alone.toml a.nit no.in shot-1.ppm final.ppm events-a.txt journal.txt capture.ncap
bytes capture.ncap CUT

case the first 255 pixels are white
with alone
more a.nit =fill 0 0 16 15 FFFFFF\nfill 0 15 15 1 FFFFFF\n
bytes capture.ncap WHITE_255

case the first 256 pixels are white, which are the first tile
with alone
more a.nit =fill 0 0 16 16 FFFFFF\n
bytes capture.ncap WHITE_256

case the first 257 pixels are white
with alone
more a.nit =fill 0 0 16 16 FFFFFF\nfill 0 16 1 1 FFFFFF\n
bytes capture.ncap WHITE_257

case a region that ends a column too far to the right is refused, and nothing is put
with film
words capture, two.toml, 5, 0, 4, 2
ends 10 =nitpicker: capture outside\n
asked =two.toml a.nit b.nit two.in
there =two.toml a.nit b.nit two.in
entries 0

case no film is put behind a put that was refused
with film
fails 5
ends 4 =nitpicker: shot-1.ppm: write fault\n
asked =two.toml a.nit b.nit two.in shot-1.ppm
there =two.toml a.nit b.nit two.in
whole JOURNAL

case where the film cannot be put, all else is there
with film
fails 10
ends 4 =nitpicker: capture.ncap: write fault\n
there =two.toml a.nit b.nit two.in shot-1.ppm final.ppm events-a.txt events-b.txt journal.txt
whole JOURNAL

text FILMED
=two.toml a.nit b.nit two.in shot-1.ppm final.ppm events-a.txt events-b.txt journal.txt
= capture.ncap

text CUT
| 4E 43 41 50 14 00 12 00 01 02 00 00 00 00 00 00 FF FE 00 00 00 03 00 06
| 00 00 00 00 01 02 03 01 04 00 00 00 FF 11 22 33 01 00 3F 11 22 33 02 00
| 1F 11 22 33 03 00 07 11 22 33 00

text WHITE_255
| 4E 43 41 50 10 00 11 00 01 01 00 00 00 FE FF FF FF 00 00 00 00 00

text WHITE_256
| 4E 43 41 50 10 00 11 00 01 01 00 00 00 FF FF FF FF 00

text WHITE_257
| 4E 43 41 50 10 00 11 00 01 02 00 00 00 FF FF FF FF 01 00 00 FF FF FF 0E
| 00 00 00 00

text LARGE
| [screen]
| width = 20
| height = 18
|
| [input]
| script = "no.in"
|
| [[client]]
| label = "a"
| donation = 65536
| script = "a.nit"

text ENDS
| buffer 20 18
| fill 0 0 1 1 0000FF
| fill 19 17 1 1 010203
| view
| place 1 0 0 20 18
| phase
| phase
| fill 0 0 20 18 112233

text TALL
| [screen]
| width = 16
| height = 17
|
| [input]
| script = "no.in"
|
| [[client]]
| label = "a"
| donation = 65536
| script = "a.nit"

text BLACK
| buffer 16 17
| view
| place 1 0 0 16 17

"#;
