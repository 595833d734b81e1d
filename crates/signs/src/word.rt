// A sign as one word.

// A word is a sign's kind times this, and its number.
pub const KIND: u32 = 65536;

// The kinds: the byte that ends a sign, or the letter before its number.
pub const TOP: u32 = b'P' as u32;

pub const ATOM: u32 = b'a' as u32;

pub const FEATURE: u32 = b'f' as u32;

pub const BRACKET: u32 = b'[' as u32;

pub const GREATER: u32 = b'>' as u32;

pub const AND: u32 = b'&' as u32;

pub const OR: u32 = b'|' as u32;

pub const LEFT: u32 = b'(' as u32;

pub const RIGHT: u32 = b')' as u32;
