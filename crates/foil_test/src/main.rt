// Runs job files at the limits and damaged ones, and calls that are lent too little, and writes what came of each: how
// many steps were accepted and refused by each number, and how the job ended.
#![tactic(auto)]

mod damaged;
mod file;
mod lent;
mod limits;
mod run;
mod show;

fn main() {
    limits::all();
    damaged::all();
    lent::all();
}
