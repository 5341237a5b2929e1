// A backing tree as a list of numbers, the form in which a claim has it, read record by record.
ghost use Rattle.std.specs.Prelude.{◌≡◌};
ghost use Rattle.certificate.specs.Held.{record_held};
ghost use Rattle.certificate.specs.Reading.{first_record, leaf_after, split_after};

use crate::shapes::Shape;

// What a tree begins with; the lists are parts of the list that was read.
#[derive(Clone, Copy)]
pub(crate) enum Record<'a> {
    Leaf {
        scale: i32,
        potentials: &'a [i32],
        multipliers: &'a [i32],
    },
    Split {
        edge: i32,
        most: i32,
    },
}

// A leaf after its 0, and the list after it.
fn read_leaf<'a>(list: &'a [i32], shape: Shape) -> Option<(Record<'a>, &'a [i32])>
    ensures { record_held result ≡ leaf_after shape.nodes shape.rows list.now }
{
    let [scale, rest @ ..] = list else {
        return None;
    };
    let middle = 2 * shape.nodes;
    let end = middle + 2 * shape.rows;
    if rest.len() < end {
        return None;
    }
    let potentials = &rest[0..middle];
    let multipliers = &rest[middle..end];
    Some((
        Record::Leaf {
            scale: *scale,
            potentials,
            multipliers,
        },
        &rest[end..],
    ))
}

// A split after its 1, and the list after it.
fn read_split<'a>(list: &'a [i32]) -> Option<(Record<'a>, &'a [i32])>
    ensures { record_held result ≡ split_after list.now }
{
    let [edge, most, rest @ ..] = list else {
        return None;
    };
    Some((
        Record::Split {
            edge: *edge,
            most: *most,
        },
        rest,
    ))
}

// The record that the list begins with, and the list after it.
pub(crate) fn read_record<'a>(list: &'a [i32], shape: Shape) -> Option<(Record<'a>, &'a [i32])>
    ensures { record_held result ≡ first_record shape.nodes shape.rows list.now }
{
    let [tag, rest @ ..] = list else {
        return None;
    };
    match *tag {
        0 => read_leaf(rest, shape),
        1 => read_split(rest),
        _ => None,
    }
}
