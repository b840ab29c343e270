//! Lists of numbers, and orders of items that need one another.

ghost use Rattle.std.specs.Prelude.{◌≡◌, ◌<◌, true};
ghost use Rattle.std.specs.List.{All};
ghost use Rattle.cb_model.specs.Order.{IsGraph};

use cb_lists::Lists;
use cb_order::order;
use std::alloc::Global;
use std::io::Write;
use std::test::Fail;

// The lists of a text: their numbers with spaces between them, and a `;` between two lists.
fn lists(alloc: Global, text: &str) -> Result<Lists, Fail> {
    let mut lists = Lists::new(alloc);
    for part in text.split(';') {
        let mut list = Vec::new(alloc);
        for word in part.split_whitespace() {
            list.push(word.parse::<u32>().unwrap_or(u32::MAX))?;
        }
        lists.push(list.as_slice())?;
    }
    Ok(lists)
}

/// Writes the lists of a text, the last one first, and then all their numbers in order.
pub(crate) fn tell_lists(alloc: Global, text: &str, out: &mut Vec<u8>) -> Result<(), Fail> {
    let lists = lists(alloc, text)?;
    for at in (0..lists.len()).rev() {
        write!(out, "{at}:")?;
        push_numbers(lists.list(at), out)?;
        write!(out, "; ")?;
    }
    write!(out, "all:")?;
    push_numbers(lists.items(), out)?;
    writeln!(out)?;
    Ok(())
}

/// Writes numbers, each behind a space.
pub(crate) fn push_numbers(numbers: &[u32], out: &mut Vec<u8>) -> Result<(), Fail> {
    for number in numbers {
        write!(out, " {number}")?;
    }
    Ok(())
}

// Whether each number of a list is less than a number.
fn are_below(list: &[u32], count: usize) -> bool
    ensures { result ≡ true → All (λ n. n < count) list.now }
{
    for at in 0..list.len() {
        if list[at] as usize >= count {
            return false;
        }
    }
    true
}

// Whether each item needs items.
fn is_graph(graph: &Lists) -> bool
    ensures { result ≡ true → IsGraph graph.now }
{
    are_below(graph.items(), graph.len())
}

/// Writes the order of the items of a text, whose lists have the items that each one needs; or that there is a cycle, or
/// that a number is no item's.
pub(crate) fn tell_order(alloc: Global, text: &str, out: &mut Vec<u8>) -> Result<(), Fail> {
    let graph = lists(alloc, text)?;
    if graph.len() > 100_000 || !is_graph(&graph) {
        writeln!(out, "no graph")?;
        return Ok(());
    }
    match order(alloc, &graph)? {
        Some(items) => {
            write!(out, "order")?;
            push_numbers(items.as_slice(), out)?;
            writeln!(out)?;
        }
        None => writeln!(out, "cycle")?,
    }
    Ok(())
}

// So many items, each of which needs the next one, or with `back` the one before; with `round` the last one needs the
// first as well.
fn chain(alloc: Global, word: &str, count: u32) -> Result<Lists, Fail> {
    let mut lists = Lists::new(alloc);
    for item in 0..count {
        let need = if word == "back" {
            item.checked_sub(1)
        } else {
            Some(item + 1)
        };
        match need {
            Some(need) if need < count => lists.push([need].as_slice())?,
            _ if word == "round" => lists.push([0].as_slice())?,
            _ => lists.push([].as_slice())?,
        }
    }
    Ok(lists)
}

/// Writes how many items the order of a long chain has, its first and last item, and how many of its items stand right
/// behind the one that they need; or that there is a cycle.
pub(crate) fn tell_chain(
    alloc: Global,
    word: &str,
    count: u32,
    out: &mut Vec<u8>,
) -> Result<(), Fail> {
    let graph = chain(alloc, word, count)?;
    if graph.len() > 100_000 || !is_graph(&graph) {
        writeln!(out, "no graph")?;
        return Ok(());
    }
    match order(alloc, &graph)? {
        Some(items) => push_long(items.as_slice(), &graph, out)?,
        None => writeln!(out, "cycle")?,
    }
    Ok(())
}

// The first item that an item needs.
fn need_of(graph: &Lists, item: usize) -> Option<u32> {
    if item >= graph.len() {
        return None;
    }
    graph.list(item).first().copied()
}

fn push_long(items: &[u32], graph: &Lists, out: &mut Vec<u8>) -> Result<(), Fail> {
    let mut behind = 0u32;
    let mut before = None;
    for item in items {
        let need = need_of(graph, *item as usize);
        if need.is_some() && need == before {
            behind = behind.saturating_add(1);
        }
        before = Some(*item);
    }
    let first = items.first().copied().unwrap_or(0);
    let last = items.last().copied().unwrap_or(0);
    let count = items.len();
    writeln!(
        out,
        "{count} from {first} to {last}, {behind} behind their need"
    )?;
    Ok(())
}
