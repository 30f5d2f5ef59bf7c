//! Films as bytes.

/// The film of a screen's part at the top left, which is blue and then red.
pub const LEFT: [u8; 27] = [
    0x4E, 0x43, 0x41, 0x50, 4, 0, 2, 0, // NCAP, 4 by 2
    1, 1, 0, 0, 0, 7, 0, 0, 0xFF, // one tile, which is blue
    1, 1, 0, 0, 0, 7, 0xFF, 0, 0, // it is red
    0,
];

/// The film of its part at the top right, which is bare.
pub const RIGHT: [u8; 21] = [
    0x4E, 0x43, 0x41, 0x50, 4, 0, 2, 0, // NCAP, 4 by 2
    1, 1, 0, 0, 0, 7, 0, 0, 0x20, // one tile, which is bare
    1, 0, 0, // nothing changed
    0,
];

/// A film whose tiles are 16 by 16, 4 by 16, 16 by 2 and 4 by 2. Runs of 255 and 256 pixels are in
/// its first tile.
pub const CUT: [u8; 59] = [
    0x4E, 0x43, 0x41, 0x50, 20, 0, 18, 0, // NCAP, 20 by 18
    1, 2, 0, // two tiles
    0, 0, 0, 0, 0, 0xFF, 0xFE, 0, 0, 0, // the first pixel, and 255
    3, 0, 6, 0, 0, 0, 0, 1, 2, 3, // seven pixels, and the last one
    1, 4, 0, // four tiles
    0, 0, 0xFF, 0x11, 0x22, 0x33, // 256 pixels
    1, 0, 0x3F, 0x11, 0x22, 0x33, // 64
    2, 0, 0x1F, 0x11, 0x22, 0x33, // 32
    3, 0, 7, 0x11, 0x22, 0x33, // 8
    0,
];
