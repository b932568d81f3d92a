// Whether bytes are text in UTF-8: a line that is none is malformed, even if it is a comment.

// Before the next byte: 0 a character may begin; 1, 2 or 3 so many bytes of one are to come, of which 4 to 7 say what the first may be:
// 4 not an overlong one of three, 5 no surrogate, 6 not an overlong one of four, 7 none past the last character. 8 is no text.
fn lead(c: u8) -> u8 {
    if c < 128 {
        return 0;
    }
    if c < 0xc2 {
        return 8;
    }
    if c < 0xe0 {
        return 1;
    }
    match c {
        0xe0 => 4,
        0xed => 5,
        0xf0 => 6,
        0xf1 | 0xf2 | 0xf3 => 3,
        0xf4 => 7,
        _ => if c < 0xf0 { 2 } else { 8 },
    }
}

fn between(c: u8, low: u8, high: u8, then: u8) -> u8 {
    if c < low {
        return 8;
    }
    if c > high {
        return 8;
    }
    then
}

pub(crate) fn next(state: u8, c: u8) -> u8 {
    match state {
        0 => lead(c),
        1 => between(c, 0x80, 0xbf, 0),
        2 => between(c, 0x80, 0xbf, 1),
        3 => between(c, 0x80, 0xbf, 2),
        4 => between(c, 0xa0, 0xbf, 1),
        5 => between(c, 0x80, 0x9f, 1),
        6 => between(c, 0x90, 0xbf, 2),
        7 => between(c, 0x80, 0x8f, 2),
        _ => 8,
    }
}
