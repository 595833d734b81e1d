// Reading one number from bytes: decimal digits, parted by spaces or newlines.
ghost use Rattle.std.specs.Prelude.{◌≡◌, ◌≤◌, length, drop};
ghost use Rattle.call_text.specs.Token.{space_or_newline, digit, more, token, placed};

// What stands next: a number and the position after it, no number any more, or something else. Each is an answer of its own, since a text
// may end with no number and must not end with something else.
#[derive(Clone, Copy, Debug, PartialEq, Eq)]
pub enum Token {
    Is { value: u32, next: usize },
    Over,
    Bad,
}

// Whether the byte parts numbers: a space or a newline.
fn is_blank(c: u8) -> bool
    ensures { result ≡ space_or_newline c }
{
    c == b' ' || c == b'\n'
}

// Whether the byte is a decimal digit.
fn is_digit(c: u8) -> bool
    ensures { result ≡ digit c }
{
    c.is_ascii_digit()
}

// The rest of a number whose value so far is `first`, from p on.
fn read_more(text: &[u8], p: usize, first: u32) -> Token
    requires { p ≤ length text.now }
    ensures { result ≡ placed text.now (more first (drop p text.now)) }
{
    let mut value = first;
    for at in p..text.len() {
        let c = text[at];
        if !is_digit(c) {
            return if is_blank(c) {
                Token::Is { value, next: at }
            } else {
                Token::Bad
            };
        }
        let Ok(next) = u32::try_from(u64::from(value) * 10 + u64::from(c - b'0')) else {
            return Token::Bad;
        };
        value = next;
    }
    Token::Is {
        value,
        next: text.len(),
    }
}

// The next number from p on.
pub fn read_token(text: &[u8], p: usize) -> Token
    ensures { result ≡ placed text.now (token (drop p text.now)) }
{
    for at in p..text.len() {
        let c = text[at];
        if !is_blank(c) {
            return if is_digit(c) {
                read_more(text, at, 0)
            } else {
                Token::Bad
            };
        }
    }
    Token::Over
}
