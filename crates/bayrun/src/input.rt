// Standard input, read to its end. What there is no room for is read and dropped.
ghost use Rattle.std.specs.Prelude.{◌≤◌, length, IfOk};

use std::io::{self, Read};

// How many bytes one read takes at most.
const CHUNK: usize = 4096;

// Puts the first bytes of `chunk` into `room`, as many as it takes, and answers how many they are.
fn put(room: &mut [u8], chunk: &[u8]) -> usize
    ensures { result ≤ length room.old }
{
    let n = chunk.len().min(room.len());
    room[..n].copy_from_slice(&chunk[..n]);
    n
}

// Reads to the end, and answers how many bytes there are, at most as many as there is room for. Nothing says that the input ends, so the
// loop counts its turns, up to a number that no run uses up.
pub fn read_all<R: Read>(input: &mut R, room: &mut [u8]) -> io::Result<usize>
    ensures { IfOk result (λ n. n ≤ length room.old) }
{
    let mut chunk = [0u8; CHUNK];
    let mut n = 0;
    for _ in 0..u64::MAX {
        let count = input.read(&mut chunk)?;
        if count == 0 {
            break;
        }
        n += put(&mut room[n..], &chunk[..count]);
    }
    Ok(n)
}
