// Reading to the front of a lent list, from the standard input or a file.
#![tactic(auto)]

ghost use Rattle.io.specs.Counts.{IsPrefixLen};

use std::io::Read;

// Reads until the list is full, the input ends or a read fails; how many bytes are read.
pub fn read_full(from: &mut impl Read, bytes: &mut [u8]) -> usize
    ensures { IsPrefixLen result bytes.new }
{
    let mut done = 0;
    while done < bytes.len() {
        let Ok(n) = from.read(&mut bytes[done..]) else {
            break;
        };
        if n == 0 {
            break;
        }
        done += n;
    }
    done
}
