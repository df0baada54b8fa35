// The lines that the job program writes, into a lent list of bytes. Each function writes one line at
// place `at` and answers the place after it, which says too how long a line can be. Their caller lends
// room enough; the `requires` says how much.
#![tactic(auto)]

mod put;

ghost use Rattle.std.specs.Prelude.{◌+◌, ◌*◌, ◌≤◌, ◌++◌, length};
ghost use Rattle.foil_spec.specs.Corners.{corners_in};
ghost use Rattle.putting.specs.Put.{Put};
ghost use Rattle.foil_spec.specs.Text.{ascii};
ghost use Rattle.lines.specs.Lines.{item, board_line, patch_line, track_refused, track_laid};
ghost use Rattle.lines.specs.Lines.{lift_line, leg_line, strip_line, file_line};

use foil_spec::Strip;
use put::{put_corners, put_item};
use putting::{put_bytes, put_number};

// The line of a new foil: the refusal number, 0 if accepted.
#[tactic(auto, unfolding(crate::specs::Lines::board_line))]
pub fn board_line(out: &mut [u8], at: usize, number: u8) -> usize
    requires { at + 64 ≤ length out.old }
    ensures put { Put out.old at (board_line number) out.new result }
    ensures upper_bound { result ≤ at + 64 }
{
    number_line(out, at, b"board", number)
}

// The line of a patch: the refusal number, 0 if accepted.
#[tactic(auto, unfolding(crate::specs::Lines::patch_line))]
pub fn patch_line(out: &mut [u8], at: usize, number: u8) -> usize
    requires { at + 64 ≤ length out.old }
    ensures put { Put out.old at (patch_line number) out.new result }
    ensures upper_bound { result ≤ at + 64 }
{
    number_line(out, at, b"patch", number)
}

// The line of a track that was refused: its net and the number.
#[tactic(auto, unfolding(crate::specs::Lines::track_refused))]
pub fn track_refused(out: &mut [u8], at: usize, net: u16, number: u8) -> usize
    requires { at + 64 ≤ length out.old }
    ensures put { Put out.old at (track_refused net number) out.new result }
    ensures upper_bound { result ≤ at + 64 }
{
    net_line(out, at, b"track", net, number)
}

// The line of a track that was laid: its net, 0, its bends, and the first `count` corners of the list.
pub fn track_laid(
    out: &mut [u8],
    at: usize,
    net: u16,
    bends: usize,
    corners: &[u16],
    count: usize,
) -> usize
    requires count_in_bounds { at + 64 + 12 * count ≤ length out.old }
    requires count_in_bounds_2 { 2 * count ≤ length corners.now }
    ensures put { Put out.old at
        (track_laid net bends (corners_in corners.now count)) out.new result }
    ensures upper_bound { result ≤ at + 64 + 12 * count }
{
    let a = put_bytes(out, at, b"track");
    let b = put_item(out, a, net);
    let c = put_item(out, b, 0);
    let d = put_bytes(out, c, b" ");
    let e = put_number(out, d, bends as u64);
    let f = put_corners(out, e, corners, count);
    put_bytes(out, f, b"\n")
}

// The line of a lift: the net and the refusal number, 0 if accepted.
#[tactic(auto, unfolding(crate::specs::Lines::lift_line))]
pub fn lift_line(out: &mut [u8], at: usize, net: u16, number: u8) -> usize
    requires { at + 64 ≤ length out.old }
    ensures put { Put out.old at (lift_line net number) out.new result }
    ensures upper_bound { result ≤ at + 64 }
{
    net_line(out, at, b"lift", net, number)
}

// The line of a leg: the net and the refusal number, 0 if accepted.
#[tactic(auto, unfolding(crate::specs::Lines::leg_line))]
pub fn leg_line(out: &mut [u8], at: usize, net: u16, number: u8) -> usize
    requires { at + 64 ≤ length out.old }
    ensures put { Put out.old at (leg_line net number) out.new result }
    ensures upper_bound { result ≤ at + 64 }
{
    net_line(out, at, b"leg", net, number)
}

// The line of a strip: its ends.
pub fn strip_line(out: &mut [u8], at: usize, strip: Strip) -> usize
    requires { at + 64 ≤ length out.old }
    ensures put { Put out.old at (strip_line strip) out.new result }
    ensures upper_bound { result ≤ at + 30 }
{
    let a = put_bytes(out, at, b"strip");
    let b = put_item(out, a, strip.x0);
    let c = put_item(out, b, strip.y0);
    let d = put_item(out, c, strip.x1);
    let e = put_item(out, d, strip.y1);
    put_bytes(out, e, b"\n")
}

// The line of a file that was refused: the number.
#[tactic(auto, unfolding(crate::specs::Lines::file_line))]
pub fn file_line(out: &mut [u8], at: usize, number: u8) -> usize
    requires { at + 64 ≤ length out.old }
    ensures put { Put out.old at (file_line number) out.new result }
    ensures upper_bound { result ≤ at + 64 }
{
    number_line(out, at, b"file", number)
}

// A line of a word and a number.
fn number_line(out: &mut [u8], at: usize, word: &[u8], number: u8) -> usize
    requires { at + length word.now + 21 ≤ length out.old }
    ensures put { Put out.old at (word.now ++ item number ++ ascii "\n")
        out.new result }
    ensures upper_bound { result ≤ at + length word.now + 7 }
{
    let a = put_bytes(out, at, word);
    let b = put_item(out, a, u16::from(number));
    put_bytes(out, b, b"\n")
}

// A line of a word, a net and a number.
fn net_line(out: &mut [u8], at: usize, word: &[u8], net: u16, number: u8) -> usize
    requires { at + length word.now + 27 ≤ length out.old }
    ensures put { Put out.old at (word.now ++ item net ++ item number ++ ascii "\n")
        out.new result }
    ensures upper_bound { result ≤ at + length word.now + 13 }
{
    let a = put_bytes(out, at, word);
    let b = put_item(out, a, net);
    let c = put_item(out, b, u16::from(number));
    put_bytes(out, c, b"\n")
}
