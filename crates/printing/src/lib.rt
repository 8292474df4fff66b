// The lines that planverify prints, and the line of the release figures.
#![tactic(auto)]

mod text;

ghost use Rattle.std.specs.Prelude.{◌≡◌, ◌≤◌, length};
ghost use Rattle.semantics.specs.Printing.{printed_for, most_lines, printed, numbers_line};
ghost use Rattle.lists.specs.Lists.{write};
ghost use Rattle.verifier.specs.Answers.{answer_of};
ghost use Rattle.printing.specs.Lines.{Appended, shown_in, Printable};

use routine::TRACE;
use text::Text;
use verifier::{Verdict, VerifyError, number, verify};

// The bytes that are lent for the lines.
pub const LINES: usize = 512;

// How many release figures there are, as release::Figures::NUMBERS: the types of the calls refuse any other. (Taken from there, it would
// be all that this crate, and planverify with it, needs the crate release for: no plainer.)
pub const FIGURES: usize = 6;

// The budget of planverify.
const BUDGET: u32 = 1000000;

// Writes what an answer prints into a text that is empty.
fn put_lines(text: &mut Text, answer: Result<Verdict, VerifyError>, trace: &[u8; TRACE])
    requires { (text.old.length ≡ 0) × Printable answer }
    ensures { Appended text.old text.new (printed_for (answer_of answer) (shown_in (answer_of answer) trace.now)) }
{
    match answer {
        Ok(Verdict::Valid(c)) => text.line(b"valid", c),
        Ok(Verdict::Invalid(c, l)) => text.invalid(c, l, trace),
        Ok(Verdict::Stopped(b)) => text.line(b"stopped", b),
        Err(error) => text.line(b"refused", number(answer) as u32),
    }
}

// Writes what planverify prints for a sheet from the first byte on, and gives its length.
pub fn print(bytes: &[u8], out: &mut [u8; LINES]) -> usize
    ensures { (result ≡ length (printed bytes.now)) × (out.new ≡ write out.old 0 (printed bytes.now)) × (result ≤ most_lines) }
{
    let mut trace = [0u8; TRACE];
    let answer = verify(bytes, BUDGET, &mut trace);
    let mut text = Text {
        bytes: out,
        length: 0,
    };
    put_lines(&mut text, answer, &trace);
    text.length
}

// Writes the line of the release figures from the first byte on, and gives its length.
pub fn print_figures(figures: [u64; FIGURES], out: &mut [u8; LINES]) -> usize
    ensures { (result ≡ length (numbers_line figures)) × (out.new ≡ write out.old 0 (numbers_line figures)) × (result ≤ most_lines) }
{
    let mut text = Text {
        bytes: out,
        length: 0,
    };
    text.numbers(&figures);
    text.push(b'\n');
    text.length
}
