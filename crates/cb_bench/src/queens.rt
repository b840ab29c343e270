//! The placements of queens of which none attacks another, one in each row.

use cb_dd::{Node, Stop};
use cb_ops::Ops;
use cb_trial::checked::{and, bit, not, or};

pub fn build(ops: &mut Ops, size: u32) -> Result<Node, Stop> {
    let mut all = rows(ops, size)?;
    for row in 0..size {
        for column in 0..size {
            let alone = alone(ops, size, row, column)?;
            all = and(ops, all, alone)?;
        }
    }
    Ok(all)
}

// Each row has a queen.
fn rows(ops: &mut Ops, size: u32) -> Result<Node, Stop> {
    let mut all = Node::ONE;
    for row in 0..size {
        let mut some = Node::ZERO;
        for column in 0..size {
            let here = field(ops, size, row, column)?;
            some = or(ops, some, here)?;
        }
        all = and(ops, all, some)?;
    }
    Ok(all)
}

// Where a queen stands here, none stands on a field that she attacks.
fn alone(ops: &mut Ops, size: u32, row: u32, column: u32) -> Result<Node, Stop> {
    let here = field(ops, size, row, column)?;
    let mut free = not(ops, here)?;
    let mut others = Node::ONE;
    for other_row in 0..size {
        for other_column in 0..size {
            if attacks(row, column, other_row, other_column) {
                let there = field(ops, size, other_row, other_column)?;
                let none = not(ops, there)?;
                others = and(ops, others, none)?;
            }
        }
    }
    free = or(ops, free, others)?;
    Ok(free)
}

fn attacks(row: u32, column: u32, other_row: u32, other_column: u32) -> bool {
    let down = row.abs_diff(other_row);
    let across = column.abs_diff(other_column);
    if down == 0 && across == 0 {
        return false;
    }
    down == 0 || across == 0 || down == across
}

fn field(ops: &mut Ops, size: u32, row: u32, column: u32) -> Result<Node, Stop> {
    bit(ops, row.saturating_mul(size).saturating_add(column))
}
