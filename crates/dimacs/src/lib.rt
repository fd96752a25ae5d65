// A clause set as DIMACS text, line by line out of the translator's places.
#![tactic(auto)]

ghost use Rattle.std.specs.Prelude.{◌≡◌, ◌++◌, ◌+◌, ◌*◌, ◌/◌, ◌≤◌, length};
ghost use Rattle.solving.specs.Places.{unplace};
ghost use Rattle.writing.specs.Room.{enough, numbered, Put, Lined};
ghost use Rattle.dimacs.specs.Dimacs.{space, head_line, literals_text, clause_line, clause_in, last_variable, TextIsTheSets};

use line::ROOM;

fn put_head(variables: usize, clauses: usize, out: &mut [u8]) -> usize
    requires { enough ≤ length out.old }
    ensures { Put out.old out.new 0 (head_line variables clauses) result }
{
    writing::put_pair(out, b"p cnf ", variables, b" ", clauses)
}

// The head line; a room of fewer than 64 bytes is left alone, and so by the others.
#[tactic(auto, using(writing::proofs::RoomLaws::line_cases))]
pub fn write_head(variables: usize, clauses: usize, out: &mut [u8]) -> usize
    ensures { Lined (head_line variables clauses) out.old out.new result }
{
    if out.len() < ROOM {
        return 0;
    }
    put_head(variables, clauses, out)
}

// A sign, which may be empty, a variable and a space.
fn put_signed(out: &mut [u8], at: usize, sign: &[u8], v: usize) -> usize
    requires { at + length (numbered sign.now v ++ space) ≤ length out.old }
    ensures { Put out.old out.new at (numbered sign.now v ++ space) result }
{
    let next = writing::put_numbered(out, at, sign, v);
    writing::put_byte(out, next, b' ')
}

// The literal of a place and a space, or nothing for filler.
#[tactic(auto, using(crate::proofs::ClauseLaws::place_cases))]
fn put_literal(out: &mut [u8], at: usize, place: u16) -> usize
    requires { at + length (literals_text (unplace place)) ≤ length out.old }
    ensures { Put out.old out.new at (literals_text (unplace place)) result }
{
    if place == 0 {
        at
    } else if place % 2 == 0 {
        put_signed(out, at, b"", variable(place))
    } else {
        put_signed(out, at, b"-", variable(place))
    }
}

// The literals of three places.
#[tactic(auto, using(crate::proofs::ClauseLaws::literal_short))]
fn put_literals(x: u16, y: u16, z: u16, out: &mut [u8]) -> usize
    requires { enough ≤ length out.old }
    ensures { Put out.old out.new 0 (literals_text (unplace x ++ (unplace y ++ unplace z))) result }
{
    let a = put_literal(out, 0, x);
    let b = put_literal(out, a, y);
    put_literal(out, b, z)
}

// Three places as a clause's line.
#[tactic(auto, using(crate::proofs::ClauseLaws::three_short))]
fn put_clause(x: u16, y: u16, z: u16, out: &mut [u8]) -> usize
    requires { enough ≤ length out.old }
    ensures { Put out.old out.new 0 (clause_line (unplace x ++ (unplace y ++ unplace z))) result }
{
    let end = put_literals(x, y, z, out);
    writing::put_text(out, end, b"0\n")
}

// The line of clause number k, counted from 0.
#[tactic(auto, using(writing::proofs::RoomLaws::line_cases))]
pub fn write_clause(room: &[u16], k: usize, out: &mut [u8]) -> usize
    requires { 3 * k + 3 ≤ length room.now }
    ensures { Lined (clause_line (clause_in room.now k)) out.old out.new result }
{
    if out.len() < ROOM {
        return 0;
    }
    let i = 3 * k;
    put_clause(room[i], room[i + 1], room[i + 2], out)
}

// The variable of a place.
fn variable(place: u16) -> usize
    ensures { result ≡ place / 2 }
{
    usize::from(place / 2)
}

// The number of all variables of sheet and invariant, out of the room with set 2 in it: its last clause is the unit clause of the
// invariant's top after the scan, which is the last variable of all.
#[tactic(auto, unfolding(crate::specs::Dimacs::last_variable))]
pub fn last_variable(room: &[u16], clauses: usize) -> usize
    ensures { result ≡ last_variable room.now clauses }
{
    if clauses < 1 || room.len() / 3 < clauses {
        return 0;
    }
    let i = 3 * (clauses - 1);
    variable(room[i])
}

// Nothing to run: the lines are the set's, the last variable is the last, and no set needs more places than the largest may have.
#[tactic(auto, using(crate::proofs::SetLaws::text_is_the_sets))]
pub fn text_is_the_sets()
    ensures { TextIsTheSets }
{}
