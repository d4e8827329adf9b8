// Reads a plan from standard input, and prints its listing or its refusal.
#![tactic(auto)]

ghost use Rattle.std.specs.Prelude.{◌≡◌, ◌≤◌, length, IfOk};

use listing::{Page, print};
use std::io;
use std::io::{Read, Write};

// 5,136 bytes for the longest plan, and one more to tell a longer input.
type Input = [u8; 5137];

fn room() -> Input
    ensures { 5137 ≡ length result }
{
    [0u8; 5137]
}

// What is printed has at most 2,048 bytes.
fn page() -> Page
    ensures { 2048 ≡ length result }
{
    [0u8; 2048]
}

// Reads until the input is full or ends, and returns how many bytes stand at its start. A `while`: a read may give
// fewer bytes than there is room for.
fn read_full<R: Read>(reader: &mut R, input: &mut [u8]) -> io::Result<usize>
    ensures { IfOk result (λ n. n ≤ length input.new) }
{
    let mut done = 0;
    while done < input.len() {
        let n = reader.read(&mut input[done..])?;
        if n == 0 {
            break;
        }
        done += n;
    }
    Ok(done)
}

fn main(rt: HostRuntime) -> io::Result<()> {
    let mut input = room();
    let mut out = page();
    let n = read_full(&mut rt.reader(), &mut input)?;
    let k = print(&input[..n], &mut out);
    io::writer(&rt).write_all(&out[..k])
}
