// Reads a program file and then edits from standard input, and prints what the library says of each. The first argument
// chooses the repair; what is printed is the same with either.
#![tactic(auto)]

ghost use Rattle.std.specs.Prelude.{◌≤◌, IfOk, length};

use input::INPUT_SIZE;
use report::BLOCK_SIZE;
use std::env::{Env, FillError};
use std::io;
use std::io::Read;

// Prints the first n bytes. What is to be printed lies within the output: hence the `requires`.
fn print(rt: &impl Print, out: &[u8], n: usize) -> io::Result<()>
    requires { n ≤ length out.now }
{
    rt.write_all(&out[..n])
}

// Turn by turn, until the input is at its end or printing fails.
fn print_turns(rt: &impl Print, inside_out: bool, input: &[u8]) -> io::Result<()> {
    let mut out = [0u8; BLOCK_SIZE];
    let mut turn = first_turn::begin(input, &mut out);
    while turn.next < input.len() {
        print(rt, &out, turn.size)?;
        let at = turn.next;
        let held = turn.held;
        turn = edit_turn::edit_line(inside_out, input, at, held, &mut out);
    }
    print(rt, &out, turn.size)
}

// Reads until the bytes are full or the reader is at its end, and answers how many bytes it put at their start.
fn read_full(reader: &mut impl Read, bytes: &mut [u8]) -> io::Result<usize>
    ensures { IfOk result (λ n. n ≤ length bytes.new) }
{
    let mut size = 0;
    while size < bytes.len() {
        let n = reader.read(&mut bytes[size..])?;
        if n == 0 {
            break;
        }
        size += n;
    }
    Ok(size)
}

// Everything that standard input holds, and of a longer input enough to see that it is too long.
fn print_all(rt: &(impl Input + Print), inside_out: bool) -> io::Result<()> {
    let mut input = [0u8; INPUT_SIZE + 1];
    let size = read_full(&mut rt.reader(), &mut input)?;
    print_turns(rt, inside_out, &input[..size])
}

fn main(rt: HostRuntime) -> io::Result<()> {
    let mut name = [0u8; 10];
    let size = match rt.arg(1, &mut name) {
        Ok(size) => size,
        Err(FillError::TooLong) => 0,
        Err(FillError::NotPresent) => return print_all(&rt, false),
    };
    match &name[..size] {
        b"forward" => print_all(&rt, false),
        b"inside-out" => print_all(&rt, true),
        _ => eprintln!(rt; "forward or inside-out"),
    }
}
