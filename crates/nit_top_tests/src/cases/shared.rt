//! Texts that tables share.

/// What stands here, in order: two clients, their input script and what comes of their run; two
/// clients side by side, with a click and clip scripts, or with a drag; one of them that is killed;
/// the script of the red rectangle; and a bare screen.
pub const TEXTS: &str = r#"

text CONFIG
| [screen]
| width = 8
| height = 4
|
| [input]
| script = "two.in"
|
| [[client]]
| label = "a"
| donation = 65536
| script = "a.nit"
|
| [[client]]
| label = "b"
| donation = 65536
| script = "b.nit"

text A
| buffer 4 2
| fill 0 0 4 2 FF0000
| view
| place 1 0 0 4 2
| phase
| phase
| phase

text B
| phase
| buffer 4 2
| fill 0 0 4 2 0000FF
| view
| place 1 0 0 4 2
| phase
| phase
| place 1 4 2 4 2

text INPUT
| phase
| phase
| shot
| phase

text EVENTS
| lost 0
| left 0
| state live

text JOURNAL
| call 0 done < buffer 4 2
| call 0 handle 1 < view
| call 0 done < place 1 0 0 4 2
| call 1 done < buffer 4 2
| call 1 handle 1 < view
| call 1 done < place 1 0 0 4 2
| shot 1
| call 1 done < place 1 4 2 4 2
| final

text RED_ENTRIES
| call 0 done < buffer 4 2
| call 0 handle 1 < view
| call 0 done < place 1 1 1 4 2
| final

text PLACED
| call 0 done < buffer 4 4
| call 1 done < buffer 4 4
| call 0 handle 1 < view
| call 1 handle 1 < view
| call 0 done < place 1 0 0 4 4
| call 1 done < place 1 4 0 4 4

text SHOT
| BBBB....
| BBBB....
| ........
| ........

text FINAL
| RRRR....
| RRRR....
| ....BBBB
| ....BBBB

text FIRST
| buffer 4 2
| fill 0 0 4 2 FF0000
| view
| place 1 1 1 4 2

text CLIP_PAIR
| [screen]
| width = 8
| height = 4
|
| [input]
| script = "clip.in"
|
| [[client]]
| label = "a"
| donation = 65536
| script = "pa.nit"
|
| [[client]]
| label = "b"
| donation = 65536
| script = "pb.nit"

text LEFT
| buffer 4 4
| fill 0 0 4 4 FF0000
| view
| place 1 0 0 4 4
| phase
| phase

text RIGHT
| buffer 4 4
| fill 0 0 4 4 0000FF
| view
| place 1 4 0 4 4
| phase
| phase

text CLICK
| phase
| motion 1 1
| press 272
| release 272
| phase

text COPIES
| paste
| phase
| phase
| copy =hi
| paste

text PASTES
| phase
| phase
| paste

text CLIPPED
=pair.toml pa.nit pb.nit clip.in pa.nit.clip pb.nit.clip final.ppm events-a.txt events-b.txt
= journal.txt clip.txt

text PAIR
| [screen]
| width = 8
| height = 4
|
| [input]
| script = "pair.in"
|
| [[client]]
| label = "a"
| donation = 65536
| script = "pa.nit"
|
| [[client]]
| label = "b"
| donation = 65536
| script = "pb.nit"

text PA
| buffer 4 4
| fill 0 0 4 4 FF0000
| view
| place 1 0 0 4 4
| phase

text PB
| buffer 4 4
| fill 0 0 4 4 0000FF
| view
| place 1 4 0 4 4
| phase

text DRAG
| phase
| motion 1 1
| press 272
| motion 5 1
| release 272
| motion 6 1

text KILLING
| phase
| motion 1 1
| press 272
| release 272
| press 99
| press 272
| release 272
| phase

text KILLED_ENTRIES
| input motion 1 1 > 0 motion 1 1
| input press 272 > 0 focus-enter > 0 press 272
| input release 272 > 0 release 272
| input press 99 > 0 leave
| input press 272 > 0 kill
| input release 272
| call 0 killed < take
| call 1 no-event < take
| call 0 killed < view
| call 0 killed < close
| final

text BARE
| ........
| ........
| ........
| ........

"#;
