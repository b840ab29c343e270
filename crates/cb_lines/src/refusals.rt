//! Refusals that name a place in the file or in the input.

ghost use Rattle.std.specs.Prelude.{◌≡◌, [], ◌∷◌, ◌++◌, Some, IfOk, OnOk};
ghost use Rattle.cb_model.specs.Text.{lines_text};
ghost use Rattle.cb_model.specs.Output.{fault_refused};
ghost use Rattle.cb_model.specs.Refusals.{refusal_line};
ghost use Rattle.cb_lex.specs.Faults.{fault_of};
ghost use Rattle.cb_lines.specs.Ends.{EndsBy};
ghost use Rattle.cb_lines.specs.Refusals.{whose_text, place_text, refusal_view, placed_in, read_refused, load_refused, circuit_refused};

use crate::ended::{Ended, Line};
use cb_circ::CircError;
use cb_directives::LoadError;
use cb_lex::LexError;
use cb_syntax::ReadError;
use itoa::Buffer;
use std::alloc::{AllocError, Global};

/// What a place is in.
#[derive(Clone, Copy)]
pub enum Whose {
    /// The file.
    File,
    /// The input with its queries.
    Query,
}

impl Whose {
    // What stands before the place.
    fn word(self) -> &'static [u8]
        ensures { result.now ≡ whose_text self }
    {
        match self {
            Whose::File => b"",
            Whose::Query => b"query ",
        }
    }
}

/// A place in a file or in the input.
#[derive(Clone, Copy)]
pub enum Place {
    /// The number of a byte, counted from 0.
    Byte(u32),
    /// The number of a line, counted from 1.
    Line(u32),
}

/// A refusal that names a place, by its number and its text.
#[derive(Clone, Copy)]
pub struct Refusal {
    pub number: u8,
    pub whose: Whose,
    pub place: Place,
    pub text: &'static [u8],
}

impl Refusal {
    /// The whole line that is printed.
    pub fn line(&self, alloc: Global) -> Result<Vec<u8>, AllocError>
        ensures { IfOk result (λ v. v.items ≡ lines_text (refusal_line (refusal_view self.now) ∷ [])) }
    {
        let mut line = Vec::from_slice(alloc, b"error: ")?;
        line.extend_from_slice(self.whose.word())?;
        push_place(&mut line, self.place)?;
        line.extend_from_slice(self.text)?;
        line.push(b'\n')?;
        Ok(line)
    }
}

// A refusal that names a byte.
fn at_byte(number: u8, whose: Whose, byte: u32, text: &'static [u8]) -> Refusal
    ensures { result ≡ record { number = number; whose = whose; place = Place.Byte byte; text = text.entry } }
{
    Refusal {
        number,
        whose,
        place: Place::Byte(byte),
        text,
    }
}

// A refusal that names a line.
fn at_line(number: u8, whose: Whose, line: u32, text: &'static [u8]) -> Refusal
    ensures { result ≡ record { number = number; whose = whose; place = Place.Line line; text = text.entry } }
{
    Refusal {
        number,
        whose,
        place: Place::Line(line),
        text,
    }
}

// The refusal of the first fault of the bytes.
fn of_bytes(whose: Whose, fault: LexError) -> Refusal
    ensures { Some (refusal_view result) ≡ placed_in whose (Some (fault_refused (fault_of fault))) }
{
    match fault {
        LexError::Byte(byte) => at_byte(1, whose, byte, b"unexpected byte"),
        LexError::Number(byte) => at_byte(2, whose, byte, b"number out of range"),
        LexError::Quote(byte) => at_byte(3, whose, byte, b"unclosed quote"),
    }
}

// The refusal of a text that is not read; want of memory is none.
fn of_reading(whose: Whose, error: ReadError) -> Result<Refusal, AllocError>
    ensures { IfOk result (λ r. Some (refusal_view r) ≡ placed_in whose (read_refused error)) }
{
    match error {
        ReadError::Lex(fault) => Ok(of_bytes(whose, fault)),
        ReadError::Syntax(line) => Ok(at_line(4, whose, line, b"syntax")),
        ReadError::Unfinished(line) => Ok(at_line(5, whose, line, b"unfinished clause")),
        ReadError::Deep(line) => Ok(at_line(6, whose, line, b"nested too deep")),
        ReadError::Memory => Err(AllocError),
    }
}

// The refusal of clauses or queries that are not accepted; want of memory is none.
fn of_sorts(whose: Whose, error: LoadError) -> Result<Refusal, AllocError>
    ensures { IfOk result (λ r. Some (refusal_view r) ≡ placed_in whose (load_refused error)) }
{
    match error {
        LoadError::Directive(line) => Ok(at_line(7, whose, line, b"bad directive")),
        LoadError::SortClash(line) => Ok(at_line(8, whose, line, b"sort clash")),
        LoadError::Unknown(line) => Ok(at_line(9, whose, line, b"unknown name")),
        LoadError::Twice(line) => Ok(at_line(10, whose, line, b"declared twice")),
        LoadError::Memory => Err(AllocError),
    }
}

// The refusal of a fact of circuits; want of memory is none.
fn of_circuits(error: CircError) -> Result<Refusal, AllocError>
    ensures { IfOk result (λ r. Some (refusal_view r) ≡ placed_in Whose.File (circuit_refused error)) }
{
    match error {
        CircError::Twice(line) => Ok(at_line(10, Whose::File, line, b"declared twice")),
        CircError::Pins(line) => Ok(at_line(11, Whose::File, line, b"bad pins")),
        CircError::Driven(line) => Ok(at_line(12, Whose::File, line, b"net not driven once")),
        CircError::Cycle(line) => Ok(at_line(13, Whose::File, line, b"cycle in a module")),
        CircError::Part(line) => Ok(at_line(14, Whose::File, line, b"unknown part")),
        CircError::Large(line) => Ok(at_line(15, Whose::File, line, b"circuit too large")),
        CircError::Memory => Err(AllocError),
    }
}

/// How the run ends where a text is not read.
pub fn unread(alloc: Global, whose: Whose, error: ReadError) -> Ended
    ensures { EndsBy (λ r. Some r ≡ placed_in whose (read_refused error)) ⊥ result }
{
    match of_reading(whose, error) {
        Ok(refusal) => refused(alloc, &refusal),
        Err(_) => Ended::Memory,
    }
}

/// How the run ends where clauses or queries are not accepted.
pub fn unloaded(alloc: Global, whose: Whose, error: LoadError) -> Ended
    ensures { EndsBy (λ r. Some r ≡ placed_in whose (load_refused error)) ⊥ result }
{
    match of_sorts(whose, error) {
        Ok(refusal) => refused(alloc, &refusal),
        Err(_) => Ended::Memory,
    }
}

/// How the run ends where a fact of circuits of the file is refused.
pub fn unconnected(alloc: Global, error: CircError) -> Ended
    ensures { EndsBy (λ r. Some r ≡ placed_in Whose.File (circuit_refused error)) ⊥ result }
{
    match of_circuits(error) {
        Ok(refusal) => refused(alloc, &refusal),
        Err(_) => Ended::Memory,
    }
}

// The end by a refusal, with its line.
fn refused(alloc: Global, refusal: &Refusal) -> Ended
    ensures { EndsBy (λ r. r ≡ refusal_view refusal.now) ⊥ result }
{
    match refusal.line(alloc) {
        Ok(line) => Ended::Refused(Line::Made(line), refusal.number),
        Err(_) => Ended::Memory,
    }
}

// Appends a place as it is printed, up to the text of its refusal.
fn push_place(line: &mut Vec<u8>, place: Place) -> Result<(), AllocError>
    ensures { OnOk result (line.new.items ≡ line.old.items ++ place_text place) }
{
    let mut number = Buffer::new();
    match place {
        Place::Byte(at) => {
            line.extend_from_slice(b"byte ")?;
            line.extend_from_slice(number.format(at).as_bytes())?;
        }
        Place::Line(at) => {
            line.extend_from_slice(b"line ")?;
            line.extend_from_slice(number.format(at).as_bytes())?;
        }
    }
    line.extend_from_slice(b": ")?;
    Ok(())
}
