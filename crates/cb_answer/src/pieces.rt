//! The text of an answer from the pieces of its terms.

ghost use Rattle.std.specs.Prelude.{◌≡◌, ◌<◌, ◌++◌, [], length, get_or, IfOk, OnOk};
ghost use Rattle.std.specs.Fmt.{signed_decimal};
ghost use Rattle.cb_model.specs.Bits.{Each};
ghost use Rattle.cb_model.specs.Line.{open_text};
ghost use Rattle.cb_laws.proofs.OpenTrees.{Plains};
ghost use Rattle.cb_answer.specs.Items.{begins, item_start, item_starts, leads};
ghost use Rattle.cb_answer.specs.Lines.{HasForm, HasToken, IsNamed, TellsOf, told_leaf, told_line, told_pieces, told_text, told_token};

use crate::Item;
use cb_ops::Ops;
use cb_project::Projected;
use cb_shape::{Printed, Token};
use cb_show::{Names, push_name, push_value};
use itoa::Buffer;
use std::alloc::{AllocError, Global};

/// What a line is written from: the items, the names by number, the parametric form of the leaves with the operations
/// that have its nodes, and how many constants there are.
#[derive(Drop)]
pub struct Told<'a, N> {
    pub items: &'a [Item<'a>],
    pub names: &'a N,
    pub ops: &'a Ops,
    pub form: &'a Projected,
    pub constants: u32,
}

// Appends a number.
fn push_number(line: &mut Vec<u8>, value: i64) -> Result<(), AllocError>
    ensures { OnOk result (line.new.items ≡ line.old.items ++ signed_decimal value) }
{
    let mut buffer = Buffer::new();
    line.extend_from_slice(buffer.format(value).as_bytes())?;
    Ok(())
}

// Appends an open place by its number; more than any memory holds are refused.
fn push_open(line: &mut Vec<u8>, number: usize) -> Result<(), AllocError>
    ensures { OnOk result (line.new.items ≡ line.old.items ++ open_text number) }
{
    let Some(shown) = number.checked_add(1) else {
        return Err(AllocError);
    };
    let mut buffer = Buffer::new();
    line.extend_from_slice(b"_T")?;
    line.extend_from_slice(buffer.format(shown).as_bytes())?;
    Ok(())
}

// Appends the name of a printed variable and ` = `, or that the goal of a name waits.
fn push_item(line: &mut Vec<u8>, item: Item<'_>) -> Result<(), AllocError>
    ensures { OnOk result (line.new.items ≡ line.old.items ++ item_start item.entry) }
{
    match item {
        Item::Var(name, _) => {
            line.extend_from_slice(name)?;
            line.extend_from_slice(b" = ")?;
            Ok(())
        }
        Item::Waiting(name, _) => {
            line.extend_from_slice(b"waiting ")?;
            push_name(line, name)
        }
    }
}

// Whether a variable leads the items.
fn variable_leads(items: &[Item<'_>]) -> bool
    ensures { result ≡ leads items.now }
{
    matches!(items.first(), Some(Item::Var(_, _)))
}

// Appends what stands before the term of this number.
fn push_start(line: &mut Vec<u8>, items: &[Item<'_>], place: usize) -> Result<(), AllocError>
    requires { place < length items.now }
    ensures { OnOk result (line.new.items ≡ line.old.items ++ get_or (item_starts items.now) place []) }
{
    if place == 0 && variable_leads(items) {
        return push_item(line, items[place]);
    }
    line.extend_from_slice(b", ")?;
    push_item(line, items[place])
}

// Appends the value of a leaf.
fn push_leaf<N: Names>(
    alloc: Global,
    line: &mut Vec<u8>,
    told: &Told<'_, N>,
    number: usize,
) -> Result<(), AllocError>
    requires form { HasForm told.now }
    requires there { number < length told.now.form.now.nodes }
    ensures { OnOk result (line.new.items ≡ line.old.items ++ told_leaf N.names N.constants told.now number) }
{
    let node = told.form.nodes.as_slice()[number];
    push_value(
        alloc,
        line,
        told.ops,
        node,
        told.constants,
        told.form.first,
        told.names,
    )
}

// Appends a piece.
fn push_token<N: Names>(
    alloc: Global,
    line: &mut Vec<u8>,
    told: &Told<'_, N>,
    token: Token,
) -> Result<(), AllocError>
    requires form { HasForm told.now }
    requires numbered { HasToken told.now token }
    ensures { OnOk result (line.new.items ≡ line.old.items ++ told_token N.names N.constants told.now token) }
{
    match token {
        Token::Term(place) => push_start(line, told.items, place)?,
        Token::Leaf(number) => push_leaf(alloc, line, told, number)?,
        Token::Open(number) => push_open(line, number)?,
        Token::Int(value) => push_number(line, value)?,
        Token::Name(name) => push_name(line, told.names.name(name))?,
        Token::LeftParen => line.push(b'(')?,
        Token::RightParen => line.push(b')')?,
        Token::LeftBracket => line.push(b'[')?,
        Token::RightBracket => line.push(b']')?,
        Token::Bar => line.push(b'|')?,
        Token::Comma => line.extend_from_slice(b", ")?,
    }
    Ok(())
}

// What stands before the first item: `yes` where no variable leads.
fn begun(alloc: Global, items: &[Item<'_>]) -> Result<Vec<u8>, AllocError>
    ensures { IfOk result (λ t. t.items ≡ begins items.now) }
{
    if variable_leads(items) {
        return Ok(Vec::new(alloc));
    }
    Vec::from_slice(alloc, b"yes")
}

// The text of an answer's pieces, without the byte at the end of the line.
fn text_of<N: Names>(
    alloc: Global,
    told: &Told<'_, N>,
    tokens: &[Token],
) -> Result<Vec<u8>, AllocError>
    requires form { HasForm told.now }
    requires numbered { Each (HasToken told.now) tokens.now }
    ensures { IfOk result (λ t. t.items ≡ told_text N.names N.constants told.now tokens.now) }
{
    let mut line = begun(alloc, told.items)?;
    for place in 0..tokens.len() {
        push_token(alloc, &mut line, told, tokens[place])?;
    }
    Ok(line)
}

/// The line of an answer within the limits, with its end. All its memory is taken here; nothing is written.
pub fn line<N: Names>(
    alloc: Global,
    told: &Told<'_, N>,
    printed: &Printed,
) -> Result<Vec<u8>, AllocError>
    requires form { HasForm told.now }
    requires terms { (ps : Plains) × TellsOf told.now ps printed.now }
    ensures pieces { IfOk result (λ t. (ps : Plains) → TellsOf told.now ps printed.now →
        t.items ≡ told_pieces N.names N.constants told.now ps) }
    // Where the goals' names are those of their numbers, it is the line of the definition.
    ensures line { IfOk result (λ t. (ps : Plains) → TellsOf told.now ps printed.now → IsNamed N.names told.now ps →
        t.items ≡ told_line N.names N.constants told.now ps) }
{
    let mut text = text_of(alloc, told, &printed.tokens)?;
    text.push(b'\n')?;
    Ok(text)
}
