// Calls as records of a job file.
use crate::asks::{Asked, Kind};

// The low byte of a number.
fn low(n: u16) -> u8 {
    (n % 256) as u8
}

// The high byte of a number.
fn high(n: u16) -> u8 {
    (n / 256) as u8
}

// A map byte and five numbers, low byte first.
pub(crate) fn spell(map: u8, a: u16, b: u16, c: u16, d: u16, e: u16) -> [u8; 11] {
    [
        map,
        low(a),
        high(a),
        low(b),
        high(b),
        low(c),
        high(c),
        low(d),
        high(d),
        low(e),
        high(e),
    ]
}

// The record of a call; zeros stand for the numbers that its step does not have.
pub fn record_of(asked: Asked) -> [u8; 11] {
    let net = asked.net;
    let four = asked.four;
    match asked.kind {
        Kind::New => spell(33, four.x0, four.y0, 0, four.x1, four.y1),
        Kind::Draw => spell(2, four.x0, four.y0, four.x1, four.y1, 0),
        Kind::Lift => spell(8, net, 0, 0, 0, 0),
        Kind::Lay => spell(4, net, four.x0, four.y0, four.x1, four.y1),
        _ => spell(16, net, four.x0, four.y0, four.x1, four.y1),
    }
}
