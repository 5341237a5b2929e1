// The call of a line.
ghost use Rattle.std.specs.Prelude.{◌≡◌, Some};
ghost use Rattle.grammar.specs.Reading.{edge_in, row_in, claim_in, void_in, alone, bare_call, request_in};
ghost use Rattle.grammar.specs.Room.{Blank};
ghost use Rattle.grammar.specs.Spelling.{Spells};
ghost use Rattle.history.specs.Calls.{Request, request};
ghost use Rattle.std.specs.Option.{option_map};

use crate::list::{MAX_NUMBERS, integers, naturals};
use crate::number::{after, natural};
use arrayvec::ArrayVec;
use history::Call;
use task::NewEdge;

// A line is shorter than 4096 bytes.
const MAX_LENGTH: usize = 4095;

// The count of turns is a number of the line too.
const MAX_TURNS: usize = MAX_NUMBERS - 1;

/// Room for the numbers of a line, so that reading one takes no memory.
#[derive(Drop)]
pub struct Tables {
    // filled up to a count that the line gives first
    turns: [u32; MAX_TURNS],
    integers: ArrayVec<i32, MAX_NUMBERS>,
}

impl Tables {
    /// Tables for any number of lines, one after the other.
    pub fn new() -> Tables
        ensures { Blank result }
    {
        Tables {
            turns: [0; MAX_TURNS],
            integers: ArrayVec::new(),
        }
    }
}

// An edge has five numbers.
fn edge<'a>(text: &[u8]) -> Option<Call<'a>>
    ensures { option_map request result ≡ edge_in text.now }
{
    let mut numbers = [0; 5];
    let rest = naturals(text, &mut numbers)?;
    let [tail, head, block, cycles, reads] = numbers;
    rest.is_empty().then_some(Call::Edge(NewEdge {
        tail,
        head,
        block,
        cycles,
        reads,
    }))
}

// A row has a relation, k and its coefficients.
fn row<'a>(text: &[u8], tables: &'a mut Tables) -> Option<Call<'a>>
    ensures { option_map request result ≡ row_in text.now }
{
    let [relation, k, coefficients @ ..] = integers(text, MAX_NUMBERS, &mut tables.integers)? else {
        return None;
    };
    Some(Call::Row {
        relation: *relation,
        k: *k,
        coefficients,
    })
}

// A claim has the count of its turns, the turns and the tree: at most 512 numbers with the count.
fn claim<'a>(text: &[u8], tables: &'a mut Tables) -> Option<Call<'a>>
    ensures { option_map request result ≡ claim_in text.now }
{
    let (count, rest) = natural(text)?;
    let turns = &mut tables.turns;
    let turns = turns.get_mut(..usize::try_from(count).ok()?)?;
    let rest = naturals(rest, turns)?;
    let tree = integers(rest, MAX_TURNS - turns.len(), &mut tables.integers)?;
    Some(Call::Claim { turns, tree })
}

// A void has a tree alone.
fn void<'a>(text: &[u8], tables: &'a mut Tables) -> Option<Call<'a>>
    ensures { option_map request result ≡ void_in text.now }
{
    let tree = integers(text, MAX_NUMBERS, &mut tables.integers)?;
    Some(Call::Void { tree })
}

// A call without numbers.
fn alone<'a>(call: Call<'a>, text: &[u8]) -> Option<Call<'a>>
    ensures { option_map request result ≡ alone (request call.entry) text.now }
{
    text.is_empty().then_some(call)
}

// The call of a line that is one word.
fn bare_call<'a>(line: &[u8]) -> Option<Call<'a>>
    ensures { option_map request result ≡ bare_call line.now }
{
    if let Some(rest) = after(b"seal", line) {
        return alone(Call::Seal, rest);
    }
    if let Some(rest) = after(b"step", line) {
        return alone(Call::Step, rest);
    }
    if let Some(rest) = after(b"withdraw", line) {
        return alone(Call::Withdraw, rest);
    }
    if let Some(rest) = after(b"told", line) {
        return alone(Call::Told, rest);
    }
    None
}

// The call of a line, by its first word. In a `match` on the word, the proof of the last arm has a case for each byte that differs.
fn call_of<'a>(line: &[u8], tables: &'a mut Tables) -> Option<Call<'a>>
    ensures { option_map request result ≡ request_in line.now }
{
    if line.len() > MAX_LENGTH {
        return None;
    }
    if let Some(rest) = after(b"edge", line) {
        return edge(rest);
    }
    if let Some(rest) = after(b"row", line) {
        return row(rest, tables);
    }
    if let Some(rest) = after(b"claim", line) {
        return claim(rest, tables);
    }
    if let Some(rest) = after(b"void", line) {
        return void(rest, tables);
    }
    bare_call(line)
}

/// The call that the line spells, if it spells one. Its lists of numbers are written into the tables.
pub fn read<'a>(line: &[u8], tables: &'a mut Tables) -> Option<Call<'a>>
    ensures only { (q : Request) → option_map request result ≡ Some q → Spells q line.now }
    ensures all { (q : Request) → Spells q line.now → option_map request result ≡ Some q }
    ensures one { (p q : Request) → Spells p line.now → Spells q line.now → p ≡ q }
{
    call_of(line, tables)
}
