// The text of a suite: its names are taken out, so that only numbers are left, and looked up.
ghost use Rattle.std.specs.Prelude.{◌≡◌, false, ◌≤◌, length, drop};
ghost use Rattle.suite_reading.specs.Text.{next_named, name_byte, blank_byte, blanked, from_hash, spaces_off, name_in};
ghost use Rattle.suite_reading.specs.Text.{FindsName};

// Whether the bytes after this one stand in a name.
#[tactic(auto, unfolding(crate::specs::Text::next_named))]
fn goes_on(named: bool, byte: u8) -> bool
    ensures { result ≡ next_named named byte }
{
    if named { byte != b'\n' } else { byte == b'#' }
}

// A byte of a name, as numbers see it.
#[tactic(auto, unfolding(crate::specs::Text::name_byte))]
fn name_byte(byte: u8) -> u8
    ensures { result ≡ name_byte byte }
{
    if byte.is_ascii_control() { byte } else { b' ' }
}

// A byte, as numbers see it.
#[tactic(auto, unfolding(crate::specs::Text::blank_byte))]
fn blank_byte(named: bool, byte: u8) -> u8
    ensures { result ≡ blank_byte named byte }
{
    if named {
        name_byte(byte)
    } else if byte == b'#' {
        b' '
    } else {
        byte
    }
}

// Writes the text without its names to out, which is as long.
pub fn blank(text: &[u8], out: &mut [u8])
    requires { length out.old ≡ length text.now }
    ensures { out.new ≡ blanked false text.now }
{
    let mut named = false;
    for (i, byte) in text.iter().enumerate() {
        out[i] = blank_byte(named, *byte);
        named = goes_on(named, *byte);
    }
}

// Where the run goes on after its first `#`; its end where it has none.
fn after_hash(run: &[u8]) -> usize
    ensures { (result ≤ length run.now) × (drop result run.now ≡ from_hash run.now) }
{
    for (at, byte) in run.iter().enumerate() {
        if *byte == b'#' {
            return at + 1;
        }
    }
    run.len()
}

// Where spaces end that stand from p on.
pub fn after_spaces(run: &[u8], p: usize) -> usize
    requires { p ≤ length run.now }
    ensures { ((p ≤ result) × (result ≤ length run.now))
        × (drop result run.now ≡ spaces_off (drop p run.now)) }
{
    for at in p..run.len() {
        if run[at] != b' ' {
            return at;
        }
    }
    run.len()
}

// From where to where the name in a run of bytes stands.
#[derive(Clone, Copy)]
pub struct Name {
    pub from: usize,
    pub to: usize,
}

// The name in a run of bytes.
pub fn find_name(run: &[u8]) -> Name
    ensures { FindsName run.now (name_in run.now) result.from result.to }
{
    let hash = after_hash(run);
    let from = after_spaces(run, hash);
    for to in from..run.len() {
        if run[to] == b'\n' {
            return Name { from, to };
        }
    }
    Name {
        from,
        to: run.len(),
    }
}
