// Writing bytes, numbers and words one after the other. Each function answers where writing goes on; or nothing, where the text is longer
// than the slice.
ghost use Rattle.std.specs.Prelude.{◌≡◌, ◌+◌, ◌<◌, ◌∷◌, [], ◌++◌, drop};
ghost use Rattle.answer_text.specs.Answer.{decimal, after_spaces, spaced, labelled, newline};
ghost use Rattle.answer_text.specs.Going.{Appends};

// Writes one byte.
pub fn put(dst: &mut [u8], at: usize, byte: u8) -> Option<usize>
    ensures { Appends (byte ∷ []) dst.old at dst.new result }
{
    if at < dst.len() {
        dst[at] = byte;
        return Some(at + 1);
    }
    None
}

// Writes a run of bytes.
pub fn put_run(dst: &mut [u8], at: usize, run: &[u8]) -> Option<usize>
    ensures { Appends run.now dst.old at dst.new result }
{
    let mut end = at;
    for byte in run {
        end = put(dst, end, *byte)?;
    }
    Some(end)
}

// The byte of a digit.
fn digit_byte(d: u64) -> u8
    requires { d < 10 }
    ensures { result ≡ 48 + d }
{
    b'0' + d as u8
}

// Writes a number in decimal: what stands before its last digit, and that digit.
fn put_decimal(dst: &mut [u8], at: usize, value: u64) -> Option<usize>
    ensures { Appends (decimal value) dst.old at dst.new result }
{
    if value < 10 {
        return put(dst, at, digit_byte(value));
    }
    let next = put_decimal(dst, at, value / 10)?;
    put(dst, next, digit_byte(value % 10))
}

// Writes a label and a number.
pub fn put_labelled(dst: &mut [u8], at: usize, label: &[u8], value: u64) -> Option<usize>
    ensures { Appends (labelled label.now value) dst.old at dst.new result }
{
    let next = put_run(dst, at, label)?;
    put_decimal(dst, next, value)
}

// Writes a label and a number, and ends the line.
pub fn put_last(dst: &mut [u8], at: usize, label: &[u8], value: u64) -> Option<usize>
    ensures { Appends (labelled label.now value ++ newline) dst.old at dst.new result }
{
    let end = put_labelled(dst, at, label, value)?;
    put(dst, end, b'\n')
}

// Writes a space and a word.
fn put_after_space(dst: &mut [u8], at: usize, word: u32) -> Option<usize>
    ensures { Appends (32 ∷ decimal word) dst.old at dst.new result }
{
    let next = put(dst, at, b' ')?;
    put_decimal(dst, next, u64::from(word))
}

// Writes words, each after a space.
fn put_each_after_space(dst: &mut [u8], at: usize, words: &[u32]) -> Option<usize>
    ensures { Appends (after_spaces words.now) dst.old at dst.new result }
{
    let mut end = at;
    for word in words {
        end = put_after_space(dst, end, *word)?;
    }
    Some(end)
}

// Writes the words from the one at `from` on, each after a space; past the end there are none.
pub fn put_after_spaces(dst: &mut [u8], at: usize, words: &[u32], from: usize) -> Option<usize>
    ensures { Appends (after_spaces (drop from words.now)) dst.old at dst.new result }
{
    put_each_after_space(dst, at, &words[from.min(words.len())..])
}

// Writes the words parted by single spaces.
fn put_words(dst: &mut [u8], at: usize, words: &[u32]) -> Option<usize>
    ensures { Appends (spaced words.now) dst.old at dst.new result }
{
    let Some(word) = words.first() else {
        return Some(at);
    };
    let next = put_decimal(dst, at, u64::from(*word))?;
    put_after_spaces(dst, next, words, 1)
}

// Writes a line of words.
pub fn put_words_line(dst: &mut [u8], at: usize, words: &[u32]) -> Option<usize>
    ensures { Appends (spaced words.now ++ newline) dst.old at dst.new result }
{
    let next = put_words(dst, at, words)?;
    put(dst, next, b'\n')
}
