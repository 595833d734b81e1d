ghost use Rattle.std.specs.Prelude.{◌≡◌, ⊤, length, take};

use super::*;
use std::test::Fail;

// A program that keeps to `Program` and is not exact: it says the first byte of a text and fills the area with it, and answers that it has
// no room where the text has none.
#[derive(Clone, Copy)]
struct First;

impl Program for First {
    ghost says = { λ room text said. said ≡ take (length said) text };

    ghost suffices = { λ room. ⊤ };

    fn answer(text: &[u8], out: &mut [u8]) -> Option<usize> {
        let first = *text.first()?;
        out.fill(first);
        Some(out.len().min(1))
    }
}

#[test]
fn prints_what_is_not_said_exactly(rt: HostRuntime) -> Result<(), Fail> {
    let mut input: &[u8] = b"abc";
    let mut bytes = [0u8; 8];
    let mut output: &mut [u8] = &mut bytes;
    let mut text = area::<4>();
    let mut out = area::<4>();
    run::<First, _, _>(&mut input, &mut output, &mut text, &mut out)?;
    assert_eq!(rt; bytes, *b"a\0\0\0\0\0\0\0");
    assert_eq!(rt; out, *b"aaaa");
    Ok(())
}

#[test]
fn prints_nothing_where_nothing_is_said(rt: HostRuntime) -> Result<(), Fail> {
    let mut bytes = [7u8; 2];
    let mut output: &mut [u8] = &mut bytes;
    let mut out = area::<4>();
    print::<First, _>(&mut output, b"", &mut out)?;
    assert_eq!(rt; bytes, [7u8; 2]);
    Ok(())
}
