// The line program: it reads the first 64 KiB of standard input and writes what lines_run's `run` prints for them to standard output, and
// nothing else. A read that fails ends it before anything is written; a write that fails ends it after a first part of the output. Either
// writes a line to standard error, which is empty where both went well.
// stdin and stdout are document 01's session; `runs/` at the root has the edges.
#![tactic(auto)]

ghost use Rattle.std.specs.Prelude.{◌≡◌, ◌≤◌, length, IfOk};
ghost use Rattle.lines_run.specs.declared.TheConstants.{INPUT_LIMIT, MOST_OUTPUT};

use std::io;
use std::io::{Read, Write};

// Reads until the buffer is full or the input ends: the number of bytes. By a loop: `read_exact` takes an input that ends before for an error.
fn read_input(rt: &HostRuntime, buffer: &mut [u8]) -> io::Result<usize>
    ensures { IfOk result (λ n. n ≤ length buffer.new) }
{
    let mut stdin = rt.stdin();
    let mut n = 0;
    while n < buffer.len() {
        let more = stdin.read(&mut buffer[n..])?;
        if more == 0 {
            break;
        }
        n += more;
    }
    Ok(n)
}

// Zeros for the bytes of the input that count.
fn input_buffer() -> [u8; lines_run::INPUT_LIMIT]
    ensures { INPUT_LIMIT ≡ length result }
{
    [0; lines_run::INPUT_LIMIT]
}

// Zeros for the longest output.
fn output_buffer() -> [u8; lines_run::MOST_OUTPUT]
    ensures { MOST_OUTPUT ≡ length result }
{
    [0; lines_run::MOST_OUTPUT]
}

// Writes what is printed for the input.
fn write_output(rt: &HostRuntime, input: &[u8]) -> io::Result<()> {
    let mut out = output_buffer();
    let n = lines_run::run(input, &mut out);
    match rt.stdout().write_all(&out[..n]) {
        Ok(()) => Ok(()),
        Err(_) => rt
            .stderr()
            .write_all(b"limgoshi: standard output could not be written\n"),
    }
}

fn main(rt: HostRuntime) -> io::Result<()> {
    let mut buffer = input_buffer();
    match read_input(&rt, &mut buffer) {
        Ok(n) => write_output(&rt, &buffer[..n]),
        Err(_) => rt
            .stderr()
            .write_all(b"limgoshi: standard input could not be read\n"),
    }
}
