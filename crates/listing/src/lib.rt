// The body of the call that lays a list of nets (`lay_list_in`): one lay after the other, each lent the corner places
// that are still unused. The foil keeps the rules before each of them, so that none checks it again. A list that is too
// long, or has too few places for its answers, is told by `too_many`.
#![tactic(auto)]

ghost use Rattle.std.specs.Prelude.{◌≡◌, true, ◌+◌, ◌*◌, ◌/◌, ◌≤◌, length};
ghost use Rattle.foil_spec.specs.Limits.{max_entries};
ghost use Rattle.foil_spec.specs.Lent.{lent, sound};
ghost use Rattle.foil_spec.specs.Wishes.{wish_at, too_many};
ghost use Rattle.listing.specs.Contract.{in_numbers, ListIn};
ghost use Rattle.listing.specs.Parts.{lay_of, MayLay, GoesOn, Fits, PutAt};

use foil::{Accepted, Answer};
use foil_spec::{Board, Point};
use laying::lay_in;

// How many nets a list has at most.
const MAX_WISHES: usize = 40;

// A net to lay, and between which points.
#[derive(Clone, Copy)]
struct Wish {
    net: u16,
    from: Point,
    to: Point,
}

// An answer in numbers: that of a refusal, 0 for none, and how many corners and bends a track has.
#[derive(Clone, Copy)]
pub struct InNumbers {
    pub number: u8,
    pub corners: usize,
    pub bends: usize,
}

// What the nets so far have left: how many numbers of the corner list they use, and whether one of them was laid.
#[derive(Clone, Copy)]
struct Listed {
    used: usize,
    laid: bool,
}

// Whether the wishes are more than 40, or more than these places for their answers.
#[tactic(auto, unfolding(foil_spec::specs::Wishes::too_many))]
pub fn too_many(wishes: &[u16], places: usize) -> bool
    ensures { result ≡ too_many wishes.now places }
{
    let n = wishes.len() / 5;
    MAX_WISHES < n || places < n
}

// Lays the nets of a list, five numbers each, on a foil that keeps the rules and may have so many entries: their
// corners one after the other at the front of the corner list, and three numbers for each answer. Answers whether one
// of them was laid.
pub fn lay_list_in(
    table: &mut [u16],
    strips: &mut [u16],
    corners: &mut [u16],
    answers: &mut [u16],
    board: &mut Board,
    limit: usize,
    wishes: &[u16],
) -> bool
    requires strips_value { sound (lent board.old table.old strips.old) ≡ true }
    requires limit_le_max_entries { limit ≤ max_entries }
    requires wishes_in_bounds { length wishes.now / 5 * 3 ≤ length answers.old }
    ensures { ListIn limit wishes.now
        (lent board.old table.old strips.old) corners.old answers.old
        result board.new table.new strips.new corners.new answers.new }
{
    let mut so_far = Listed {
        used: 0,
        laid: false,
    };
    for i in 0..wishes.len() / 5 {
        so_far = lay_next(
            table, strips, corners, answers, board, so_far, limit, wishes, i,
        );
    }
    so_far.laid
}

// Lays net i after those before it.
fn lay_next(
    table: &mut [u16],
    strips: &mut [u16],
    corners: &mut [u16],
    answers: &mut [u16],
    board: &mut Board,
    before: Listed,
    limit: usize,
    wishes: &[u16],
    i: usize,
) -> Listed
    requires { MayLay limit wishes.now i before board.old table.old strips.old corners.old answers.old }
    ensures goes_on { GoesOn limit wishes.now i
        before board.old table.old strips.old corners.old answers.old
        result board.new table.new strips.new corners.new answers.new }
    ensures used_in_bounds { result.used ≤ length corners.old }
{
    let Wish { net, from, to } = wish_at(wishes, i);
    let used = before.used;
    let answer = lay_in(
        table,
        strips,
        &mut corners[used..],
        board,
        limit,
        net,
        from,
        to,
    );
    let laid = before.laid || answer.is_ok();
    let said = in_numbers(answer);
    put_answer(answers, i, said);
    Listed {
        used: used + said.corners * 2,
        laid,
    }
}

// The wish at place k of a list.
#[tactic(auto, unfolding(crate::specs::Parts::lay_of, foil_spec::specs::Wishes::wish_at))]
fn wish_at(wishes: &[u16], k: usize) -> Wish
    requires { k * 5 + 5 ≤ length wishes.now }
    ensures { lay_of result ≡ wish_at wishes.now k }
{
    Wish {
        net: wishes[k * 5],
        from: Point {
            x: wishes[k * 5 + 1],
            y: wishes[k * 5 + 2],
        },
        to: Point {
            x: wishes[k * 5 + 3],
            y: wishes[k * 5 + 4],
        },
    }
}

// Puts the numbers of an answer at place i of their list.
#[tactic(auto, unfolding(crate::specs::Contract::place_numbers))]
fn put_answer(answers: &mut [u16], i: usize, said: InNumbers)
    requires i_in_bounds { i * 3 + 3 ≤ length answers.old }
    requires fits { Fits said }
    ensures { PutAt answers.old i said answers.new }
{
    let numbers = [said.number as u16, said.corners as u16, said.bends as u16];
    answers[i * 3..i * 3 + 3].copy_from_slice(&numbers);
}

// The numbers of an answer.
#[tactic(auto, unfolding(crate::specs::Contract::in_numbers))]
fn in_numbers(answer: Answer) -> InNumbers
    ensures { result ≡ in_numbers answer }
{
    let (number, corners, bends) = match answer {
        Err(refusal) => (refusal.number(), 0, 0),
        Ok(Accepted::Laid(corners, bends)) => (0, corners, bends),
        Ok(_) => (0, 0, 0),
    };
    InNumbers {
        number,
        corners,
        bends,
    }
}
