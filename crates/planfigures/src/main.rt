// Prints the release figures of the sheets on standard input, each of which stands behind its length.
// Where the input can't be read to its end, or the line can't be written, it says so on standard error.
#![tactic(auto)]

ghost use Rattle.std.specs.Prelude.{◌≡◌, ◌≤◌, ◌<◌, IfOk, length};
ghost use Rattle.lists.specs.Lists.{write};
ghost use Rattle.semantics.specs.Printing.{most_lines};
ghost use Rattle.planfigures.specs.Input.{after_read, Brought, Reached, Over, line_of, LineFor};

use printing::LINES;
use release::Release;
use routine::{HEAD_CELLS, NODE_CELLS, SET_WORDS};
use std::io;
use std::io::{Eprint, Print, Read, Stdin, Stdout};
use verifier::MEMO_WORDS;

// The bytes that one call of `read` asks for.
const PIECE: usize = 65536;

// How reading ended: the input did, or nothing more of it is looked at.
#[derive(Clone, Copy)]
enum Ending {
    End,
    Done,
}

// The tables that `feed` works in.
#[derive(Drop)]
struct Tables {
    heads: [u16; HEAD_CELLS],
    nodes: [u16; NODE_CELLS],
    sets: [u64; SET_WORDS],
    memo: [u64; MEMO_WORDS],
}

// So many bytes came, and the state with them.
#[derive(Clone, Copy)]
struct Step {
    came: usize,
    state: Release,
}

// The state of the bytes that were read, and how reading ended.
#[derive(Clone, Copy)]
struct Input {
    ending: Ending,
    state: Release,
}

// What a call of `read` brought that answered `got`: so many bytes, or the end. One that a signal interrupts counts as failed, as in
// planverify.
fn after(got: io::Result<usize>) -> io::Result<Option<usize>>
    ensures { result ≡ after_read got }
{
    let came = got?;
    if came == 0 {
        return Ok(None);
    }
    Ok(Some(came))
}

// Reads a piece of standard input into `memory`, as much as comes, and feeds it to the state; at the end there is none. (Without
// room `read` would answer 0, as at the end.)
fn read_piece(
    mut stdin: Stdin,
    state: Release,
    memory: &mut [u8],
    tables: &mut Tables,
) -> io::Result<Option<Step>>
    requires { 0 < length memory.old }
    ensures { Brought state result memory.new }
{
    let got = stdin.read(memory);
    let Some(came) = after(got)? else {
        return Ok(None);
    };
    let fed = state.feed(
        &memory[..came],
        &mut tables.heads,
        &mut tables.nodes,
        &mut tables.sets,
        &mut tables.memo,
    );
    Ok(Some(Step { came, state: fed }))
}

// Reads standard input piece by piece, to its end or until nothing more is looked at.
fn read_input(stdin: Stdin, memory: &mut [u8], tables: &mut Tables) -> io::Result<Input>
    requires { 0 < length memory.old }
    ensures { IfOk result (λ i. Reached i.state × Over i.ending i.state) }
{
    let mut state = Release::start();
    while !state.is_done() {
        let Some(step) = read_piece(stdin, state, memory, tables)? else {
            return Ok(Input {
                ending: Ending::End,
                state,
            });
        };
        state = step.state;
    }
    Ok(Input {
        ending: Ending::Done,
        state,
    })
}

// Writes the line for an input into `out`, and gives its length. There is none if it couldn't be read.
fn line_for(input: io::Result<Input>, out: &mut [u8; LINES]) -> usize
    ensures { (result ≡ length (line_of input)) × (out.new ≡ write out.old 0 (line_of input)) × (result ≤ most_lines) }
{
    match input {
        Ok(Input { state, .. }) => {
            let figures = state.end();
            printing::print_figures(figures.numbers(), out)
        }
        Err(_) => 0,
    }
}

// Hands bytes to standard output, and no others than the line of a stream that leads to the input's state: `main` writes there by
// this alone.
fn put_line(stdout: Stdout, input: io::Result<Input>, line: &[u8]) -> io::Result<()>
    requires { LineFor input line.now }
{
    stdout.write_all(line)
}

// Reads the input and writes the answer. Where standard error can't be written either, nothing is left to do.
fn main(rt: HostRuntime) {
    let mut tables = Tables {
        heads: [0; HEAD_CELLS],
        nodes: [0; NODE_CELLS],
        sets: [0; SET_WORDS],
        memo: [0; MEMO_WORDS],
    };
    let mut memory = [0u8; PIECE];
    let mut out = [0u8; LINES];
    let input = read_input(rt.stdin(), &mut memory, &mut tables);
    if input.is_err() {
        let _ = eprintln!(rt; "planfigures: the input could not be read");
    }
    let length = line_for(input, &mut out);
    if put_line(rt.stdout(), input, &out[..length]).is_err() {
        let _ = eprintln!(rt; "planfigures: the answer could not be written");
    }
}
