//! The names that the lines of a query's answers have.

use cb_show::Names;
use cb_sorts::{Program, Query};
use std::marker::Model;

/// The names and the constants of a program and, behind its names, those of a query over it.
#[derive(Drop)]
pub(crate) struct AskedNames<'a, 's, 'q> {
    pub(crate) program: &'a Program<'s>,
    pub(crate) query: &'a Query<'q>,
}

impl<'a, 's, 'q> Model for AskedNames<'a, 's, 'q> {
    ghost use Rattle.std.specs.Prelude.{◌≡◌, length};
    ghost use Rattle.std.specs.Coded.{codes};
    ghost use Rattle.cb_model.specs.Line as line;
    ghost use Rattle.cb_sorts.specs.OverFile.{asked_names};

    ghost Value = { line.Names };

    ghost coded = { Prim.hlevel codes };

    ghost view = { λ n. asked_names n.program.now n.query.now };

    ghost invariant = { λ n. n.query.now.before ≡ length n.program.now.names };
}

impl<'a, 's, 'q> Names for AskedNames<'a, 's, 'q> {
    ghost names = { λ n. n.names };

    ghost constants = { λ n. n.constants };

    fn name(&self, n: u32) -> &[u8] {
        if (n as usize) < self.program.names() {
            return self.program.name(n);
        }
        match self.query.name(n) {
            Some(name) => name,
            None => b"",
        }
    }

    fn constant(&self, k: u32) -> &[u8] {
        if k < self.program.constants() {
            self.program.constant_name(k)
        } else {
            b""
        }
    }
}
