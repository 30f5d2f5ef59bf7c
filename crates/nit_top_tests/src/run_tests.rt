//! Runs with each client on a thread of its own. Whatever the threads do, these cases come out the
//! same.

use crate::cases::assert_cases;

#[test]
fn puts_beside_each_other(rt: HostRuntime) {
    assert_cases(&rt, rt.alloc(), PUTS);
}

/// Twenty times, whatever the threads do.
#[test]
fn rounds(rt: HostRuntime) {
    for _round in 0..20 {
        assert_cases(&rt, rt.alloc(), ROUNDS);
    }
}

const PUTS: &str = r#"

base run
words run, two.toml
file two.toml CONFIG
file a.nit A
file b.nit B
file two.in INPUT
entries 9

case in a further phase the user takes a second shot, when all clients are done
with run
file a.nit A
more a.nit =phase\n
file b.nit B
more b.nit =phase\n
file two.in INPUT
more two.in =phase\nshot\n
ends 0 =nitpicker: clients 2 entries 10 frames 3\n
asked LONGER_NAMES
there LONGER_NAMES
entries 10
picture shot-1.ppm 8 4 SHOT
picture shot-2.ppm 8 4 FINAL
picture final.ppm 8 4 FINAL

case the shot cannot be put
with run
fails 5
ends 4 =nitpicker: shot-1.ppm: write fault\n
asked =two.toml a.nit b.nit two.in shot-1.ppm
there =two.toml a.nit b.nit two.in

case the last picture cannot be put
with run
fails 6
ends 4 =nitpicker: final.ppm: write fault\n
asked =two.toml a.nit b.nit two.in shot-1.ppm final.ppm
there =two.toml a.nit b.nit two.in shot-1.ppm

case the first client's events cannot be put
with run
fails 7
ends 4 =nitpicker: events-a.txt: write fault\n
asked =two.toml a.nit b.nit two.in shot-1.ppm final.ppm events-a.txt
there =two.toml a.nit b.nit two.in shot-1.ppm final.ppm

case the journal cannot be put
with run
fails 9
ends 4 =nitpicker: journal.txt: write fault\n
asked =two.toml a.nit b.nit two.in shot-1.ppm final.ppm events-a.txt events-b.txt journal.txt
there =two.toml a.nit b.nit two.in shot-1.ppm final.ppm events-a.txt events-b.txt

case sixteen clients, each with a view of one pixel beside those of the others
words run, many.toml
file many.toml MANY
file c0.nit 1 =buffer 1 1\nfill 0 0 1 1 FF0000\nview\nplace 1 {0+0} 0 1 1\n
file c1.nit 1 =buffer 1 1\nfill 0 0 1 1 FF0000\nview\nplace 1 {1+0} 0 1 1\n
file c2.nit 1 =buffer 1 1\nfill 0 0 1 1 FF0000\nview\nplace 1 {2+0} 0 1 1\n
file c3.nit 1 =buffer 1 1\nfill 0 0 1 1 FF0000\nview\nplace 1 {3+0} 0 1 1\n
file c4.nit 1 =buffer 1 1\nfill 0 0 1 1 FF0000\nview\nplace 1 {4+0} 0 1 1\n
file c5.nit 1 =buffer 1 1\nfill 0 0 1 1 FF0000\nview\nplace 1 {5+0} 0 1 1\n
file c6.nit 1 =buffer 1 1\nfill 0 0 1 1 FF0000\nview\nplace 1 {6+0} 0 1 1\n
file c7.nit 1 =buffer 1 1\nfill 0 0 1 1 FF0000\nview\nplace 1 {7+0} 0 1 1\n
file c8.nit 1 =buffer 1 1\nfill 0 0 1 1 FF0000\nview\nplace 1 {8+0} 0 1 1\n
file c9.nit 1 =buffer 1 1\nfill 0 0 1 1 FF0000\nview\nplace 1 {9+0} 0 1 1\n
file c10.nit 1 =buffer 1 1\nfill 0 0 1 1 FF0000\nview\nplace 1 {10+0} 0 1 1\n
file c11.nit 1 =buffer 1 1\nfill 0 0 1 1 FF0000\nview\nplace 1 {11+0} 0 1 1\n
file c12.nit 1 =buffer 1 1\nfill 0 0 1 1 FF0000\nview\nplace 1 {12+0} 0 1 1\n
file c13.nit 1 =buffer 1 1\nfill 0 0 1 1 FF0000\nview\nplace 1 {13+0} 0 1 1\n
file c14.nit 1 =buffer 1 1\nfill 0 0 1 1 FF0000\nview\nplace 1 {14+0} 0 1 1\n
file c15.nit 1 =buffer 1 1\nfill 0 0 1 1 FF0000\nview\nplace 1 {15+0} 0 1 1\n
file many.in =
ends 0 =nitpicker: clients 16 entries 49 frames 1\n
asked SIXTEEN_NAMES
there SIXTEEN_NAMES
entries 49
picture final.ppm 16 1 =RRRRRRRRRRRRRRRR

text LONGER_NAMES
=two.toml a.nit b.nit two.in shot-1.ppm shot-2.ppm final.ppm events-a.txt events-b.txt
= journal.txt

text MANY
| [screen]
| width = 16
| height = 1
|
| [input]
| script = "many.in"
16 =\n[[client]]\nlabel = "c{0+1}"\ndonation = 65536\nscript = "c{0+1}.nit"\n

text SIXTEEN_NAMES
=many.toml c0.nit c1.nit c2.nit c3.nit c4.nit c5.nit c6.nit c7.nit c8.nit c9.nit c10.nit c11.nit
= c12.nit c13.nit c14.nit c15.nit many.in final.ppm events-c0.txt events-c1.txt events-c2.txt
= events-c3.txt events-c4.txt events-c5.txt events-c6.txt events-c7.txt events-c8.txt
= events-c9.txt events-c10.txt events-c11.txt events-c12.txt events-c13.txt events-c14.txt
= events-c15.txt journal.txt

"#;

const ROUNDS: &str = r#"

case in each phase one actor acts, so the run has the journal and the files of the run by turns
words run, two.toml
file two.toml CONFIG
file a.nit A
file b.nit B
file two.in INPUT
ends 0 =nitpicker: clients 2 entries 9 frames 2\n
asked =two.toml a.nit b.nit two.in shot-1.ppm final.ppm events-a.txt events-b.txt journal.txt
there =two.toml a.nit b.nit two.in shot-1.ppm final.ppm events-a.txt events-b.txt journal.txt
holds two.toml CONFIG
holds a.nit A
holds b.nit B
holds two.in INPUT
picture shot-1.ppm 8 4 SHOT
picture final.ppm 8 4 FINAL
holds events-a.txt EVENTS
holds events-b.txt EVENTS
holds journal.txt JOURNAL
whole JOURNAL

case what is drawn over in a phase that is over does not come back where another view is taken away
words run, two.toml
file two.toml LAYERED
file a.nit DRAWN_OVER
file b.nit =buffer 1 1\nview\nplace 1 0 0 2 1\nphase\ndestroy 1\nphase\n
file two.in =phase\nphase\nshot\n
ends 0 =nitpicker: clients 2 entries 10 frames 2\n
asked =two.toml a.nit b.nit two.in shot-1.ppm final.ppm events-a.txt events-b.txt journal.txt
there =two.toml a.nit b.nit two.in shot-1.ppm final.ppm events-a.txt events-b.txt journal.txt
entries 10
picture shot-1.ppm 4 1 =BB..
picture final.ppm 4 1 =BB..

case one client paints, and green only beside what another uncovers, or after all shots
words run, storm.toml
file storm.toml STORM_CONFIG
file a.nit PAINTER
more a.nit =phase\nfill 0 0 64 48 00FF00\n
file b.nit CALLER
more b.nit =phase\n
file storm.in 20 =shot\n
more storm.in =phase\n
ends 0 =nitpicker: clients 2 entries 2027 frames 21\n
asked STORM_NAMES
there STORM_NAMES
is shot-1.ppm long 9229
is shot-1.ppm among .KRB
is shot-2.ppm long 9229
is shot-2.ppm among .KRB
is shot-3.ppm long 9229
is shot-3.ppm among .KRB
is shot-4.ppm long 9229
is shot-4.ppm among .KRB
is shot-5.ppm long 9229
is shot-5.ppm among .KRB
is shot-6.ppm long 9229
is shot-6.ppm among .KRB
is shot-7.ppm long 9229
is shot-7.ppm among .KRB
is shot-8.ppm long 9229
is shot-8.ppm among .KRB
is shot-9.ppm long 9229
is shot-9.ppm among .KRB
is shot-10.ppm long 9229
is shot-10.ppm among .KRB
is shot-11.ppm long 9229
is shot-11.ppm among .KRB
is shot-12.ppm long 9229
is shot-12.ppm among .KRB
is shot-13.ppm long 9229
is shot-13.ppm among .KRB
is shot-14.ppm long 9229
is shot-14.ppm among .KRB
is shot-15.ppm long 9229
is shot-15.ppm among .KRB
is shot-16.ppm long 9229
is shot-16.ppm among .KRB
is shot-17.ppm long 9229
is shot-17.ppm among .KRB
is shot-18.ppm long 9229
is shot-18.ppm among .KRB
is shot-19.ppm long 9229
is shot-19.ppm among .KRB
is shot-20.ppm long 9229
is shot-20.ppm among .KRB
is final.ppm long 9229
is final.ppm among G
sessions 2

text STORM_CONFIG
| [screen]
| width = 64
| height = 48
|
| [input]
| script = "storm.in"
|
| [[client]]
| label = "a"
| donation = 65536
| script = "a.nit"
|
| [[client]]
| label = "b"
| donation = 65536
| script = "b.nit"

text PAINTER
| buffer 64 48
| view
| place 1 0 0 64 48
2000 =fill 0 0 64 48 FF0000\nfill 1 0 1 1 00FF00\nfill 0 0 64 48 0000FF\n

text CALLER
| buffer 1 1
| view
| place 1 0 0 1 1
1000 =front 1\nback 1\n

text STORM_NAMES
=storm.toml a.nit b.nit storm.in shot-1.ppm shot-2.ppm shot-3.ppm shot-4.ppm shot-5.ppm
= shot-6.ppm shot-7.ppm shot-8.ppm shot-9.ppm shot-10.ppm shot-11.ppm shot-12.ppm shot-13.ppm
= shot-14.ppm shot-15.ppm shot-16.ppm shot-17.ppm shot-18.ppm shot-19.ppm shot-20.ppm final.ppm
= events-a.txt events-b.txt journal.txt

text LAYERED
| [screen]
| width = 4
| height = 1
|
| [input]
| script = "two.in"
|
| [[client]]
| label = "a"
| donation = 65536
| layer = 1
| script = "a.nit"
|
| [[client]]
| label = "b"
| donation = 65536
| script = "b.nit"

text DRAWN_OVER
| buffer 2 1
| view
| place 1 0 0 2 1
| fill 0 0 2 1 FF0000
| refresh 0 0 2 1
| fill 0 0 2 1 0000FF
| phase
| phase

"#;
