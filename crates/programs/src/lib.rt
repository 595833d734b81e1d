// What the programs have in common: a text is read, answered, and the answer printed.
#![tactic(auto)]

ghost use Rattle.std.specs.Prelude.{◌≡◌, List, ℕ, length, take, replicate, IfSome, OnOk};
ghost use Rattle.programs.specs.Said.{Answers, AnswersExactly, Prints};

use std::io;
use std::io::{Read, Write};
use streams::read_full;

// A program, by what it answers to a text.
pub trait Program {
    // What may be said of a text in an area of so many bytes.
    ghost says: { ℕ → List ℕ → List ℕ → Type 0 };

    // Whether an area of so many bytes is enough.
    ghost suffices: { ℕ → Type 0 };

    // Writes what is said of the text to the start of `out`, and answers how many bytes that is; or there is no room for it.
    fn answer(text: &[u8], out: &mut [u8]) -> Option<usize>
        requires { suffices (length out.old) }
        ensures { Answers (says (length out.old) text.now) result out.new };
}

// A program that writes nothing behind what it says, and has no room only where whatever is said may be.
pub trait Exact {
    // What may be said of a text in an area of so many bytes.
    ghost says: { ℕ → List ℕ → List ℕ → Type 0 };

    // Whether an area of so many bytes is enough.
    ghost suffices: { ℕ → Type 0 };

    // Writes what is said of the text to the start of `out`, and nothing behind it; answers how many bytes, or that there is no room.
    fn answer(text: &[u8], out: &mut [u8]) -> Option<usize>
        requires { suffices (length out.old) }
        ensures { AnswersExactly (says (length out.old) text.now) out.old result out.new };
}

// Each exact program is a program, and answers exactly as one too.
impl<P: Exact> Program for P {
    ghost says = { P.Exact.says };

    ghost suffices = { P.Exact.suffices };

    fn answer(text: &[u8], out: &mut [u8]) -> Option<usize>
        requires { P.Exact.suffices (length out.old) }
        ensures { AnswersExactly (P.Exact.says (length out.old) text.now) out.old result out.new }
    {
        <P as Exact>::answer(text, out)
    }
}

// An area of so many zeros.
pub fn area<const N: usize>() -> [u8; N]
    ensures len { length result ≡ N }
    ensures zeros { result ≡ replicate N 0 }
{
    [0; N]
}

// Prints what the program says of the text; nothing where there is no room for it.
pub fn print<P: Program, W: Write>(output: &mut W, text: &[u8], out: &mut [u8]) -> io::Result<()>
    requires { P.suffices (length out.old) }
    ensures { OnOk result (Prints (P.says (length out.old) text.now) (W.contents output.old) (W.contents output.new)) }
{
    let n = P::answer(text, out).unwrap_or(0);
    output.write_all(&out[..n])
}

// Reads a text as far as there is room for it, and prints what the program says of it.
pub fn run<P: Program, R: Read, W: Write>(
    input: &mut R,
    output: &mut W,
    text: &mut [u8],
    out: &mut [u8],
) -> io::Result<()>
    requires { P.suffices (length out.old) }
    ensures { OnOk result (IfSome (R.remaining input.old) (λ all.
        Prints (P.says (length out.old) (take (length text.old) all)) (W.contents output.old) (W.contents output.new))) }
{
    let n = read_full(input, text)?;
    print::<P, W>(output, &text[..n], out)
}

#[cfg(test)]
mod tests;
