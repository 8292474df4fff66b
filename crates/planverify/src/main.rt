// Verifies the sheet on standard input: prints its verdict, and the least failing trace if it is invalid.
// Where the input can't be read to its end, or the lines can't be written, it says so on standard error.
#![tactic(auto)]

ghost use Rattle.std.specs.Prelude.{◌≡◌, ◌≤◌, ◌<◌, ◌-◌, IfOk, length};
ghost use Rattle.lists.specs.Lists.{write};
ghost use Rattle.format.specs.Format.{most_bytes};
ghost use Rattle.semantics.specs.Printing.{most_lines};
ghost use Rattle.planverify.specs.Input.{after_read, lines_for};

use printing::LINES;
use std::io;
use std::io::{Eprint, Print, Read, Stdin, Stdout};
use std::ops::ControlFlow;

// One byte more than a sheet may have, so that a longer input is refused.
const MOST: usize = reader::BYTES + 1;

// What follows a call of `read` for `most - done` bytes behind `done` that answered `got`: another one behind so many bytes, or
// reading is over, to the end of the input or as many as there is room for. One that a signal interrupts counts as failed: the
// program handles no signal.
fn after(done: usize, most: usize, got: io::Result<usize>) -> io::Result<ControlFlow<usize, usize>>
    requires { (done ≤ most) × IfOk got (λ n. n ≤ most - done) }
    ensures { result ≡ after_read done most got }
{
    let put = got?;
    if put == 0 {
        return Ok(ControlFlow::Break(done));
    }
    let n = done + put;
    if n < most {
        return Ok(ControlFlow::Continue(n));
    }
    Ok(ControlFlow::Break(n))
}

// Reads standard input to its end, or until `sheet` is full, which has room for more than a sheet may have; gives how many bytes.
fn read_input(mut stdin: Stdin, sheet: &mut [u8]) -> io::Result<usize>
    requires { most_bytes < length sheet.old }
    ensures { IfOk result (λ n. n ≤ length sheet.new) }
{
    let mut done = 0;
    loop {
        let got = stdin.read(&mut sheet[done..]);
        match after(done, sheet.len(), got)? {
            ControlFlow::Continue(n) => {
                done = n;
            }
            ControlFlow::Break(n) => {
                return Ok(n);
            }
        }
    }
}

// Writes the lines for the input into `out`, and gives their length. There are none if it couldn't be read.
fn lines_for(input: io::Result<usize>, sheet: &[u8], out: &mut [u8; LINES]) -> usize
    requires { IfOk input (λ n. n ≤ length sheet.now) }
    ensures { (result ≡ length (lines_for input sheet.now)) × (out.new ≡ write out.old 0 (lines_for input sheet.now)) × (result ≤ most_lines) }
{
    match input {
        Ok(n) => printing::print(&sheet[..n], out),
        Err(_) => 0,
    }
}

// Hands bytes to standard output, and no others than the lines for the input that stands in `sheet`: `main` writes there by this alone.
fn put_lines(stdout: Stdout, input: io::Result<usize>, sheet: &[u8], lines: &[u8]) -> io::Result<()>
    requires { lines.now ≡ lines_for input sheet.now }
{
    stdout.write_all(lines)
}

// Reads the input and writes the answer. Where standard error can't be written either, nothing is left to do.
fn main(rt: HostRuntime) {
    let mut sheet = [0u8; MOST];
    let mut out = [0u8; LINES];
    let input = read_input(rt.stdin(), &mut sheet);
    if input.is_err() {
        let _ = eprintln!(rt; "planverify: the input could not be read");
    }
    let length = lines_for(input, &sheet, &mut out);
    if put_lines(rt.stdout(), input, &sheet, &out[..length]).is_err() {
        let _ = eprintln!(rt; "planverify: the answer could not be written");
    }
}
