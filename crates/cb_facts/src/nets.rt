//! The nets of a fact by number.

ghost use Rattle.std.specs.Prelude.{◌≡◌, [], true, map, None, IfOk, MatchOption};
ghost use Rattle.cb_model.specs.Forms.{form_of, forms_of};
ghost use Rattle.cb_model.specs.Written.{is_written, are_written};
ghost use Rattle.cb_model.specs.Sorts.{apart, apart_all};
ghost use Rattle.cb_model.specs.Facts.{net_of, nets_of, net_names};
ghost use Rattle.cb_facts.specs.Reads.{ReadsNet, ReadsNets, ReadsList, ReadsInputs, HasNoInputs};

use crate::terms::elements;
use cb_model::RawTerm;
use cb_variables::{Variable, Variables};
use std::alloc::{AllocError, Global};

/// The nets of a fact so far, each under the number of its first appearance, and how many of them are written `_`.
#[derive(Drop)]
pub(crate) struct Nets<'s> {
    pub names: Variables<'s>,
    pub own: usize,
}

impl<'s> Nets<'s> {
    /// No nets.
    pub(crate) fn new(alloc: Global) -> Nets<'s>
        ensures names { result.names ≡ [] }
        ensures own { result.own ≡ 0 }
    {
        Nets {
            names: Variables::new(alloc),
            own: 0,
        }
    }

    /// The number of a net, which goes behind the others where it is new; `None` where the term is no net.
    pub(crate) fn net(&mut self, term: &RawTerm<'s>) -> Result<Option<u32>, AllocError>
        requires { is_written (form_of term.now) ≡ true }
        ensures { IfOk result (λ o. MatchOption o (net_of (apart (form_of term.now) self.old.own).0 ≡ None) (ReadsNet self.old self.new (form_of term.now))) }
    {
        let RawTerm::Variable(name) = term else {
            return Ok(None);
        };
        let (variable, own) = Variable::written(*name, self.own)?;
        self.own = own;
        let number = self.names.add(variable)?;
        match u32::try_from(number) {
            Ok(number) => Ok(Some(number)),
            Err(_) => Err(AllocError),
        }
    }

    /// The numbers of nets; `None` where a term is no net.
    pub(crate) fn nets(
        &mut self,
        alloc: Global,
        terms: &[RawTerm<'s>],
    ) -> Result<Option<Vec<u32>>, AllocError>
        requires { are_written (forms_of (map form_of terms.now)) ≡ true }
        ensures { IfOk result (λ o. MatchOption o (nets_of (apart_all (forms_of (map form_of terms.now)) self.old.own).0 ≡ None) (λ v. ReadsNets self.old self.new (forms_of (map form_of terms.now)) v.items)) }
    {
        let mut numbers = Vec::new(alloc);
        for term in terms {
            let Some(number) = self.net(term)? else {
                return Ok(None);
            };
            numbers.push(number)?;
        }
        Ok(Some(numbers))
    }

    /// The numbers of the nets in a list; `None` where the term is no list of nets.
    pub(crate) fn list(
        &mut self,
        alloc: Global,
        term: &RawTerm<'s>,
    ) -> Result<Option<Vec<u32>>, AllocError>
        requires { is_written (form_of term.now) ≡ true }
        ensures { IfOk result (λ o. MatchOption o (net_names (apart (form_of term.now) self.old.own).0 ≡ None) (λ v. ReadsList self.old self.new (form_of term.now) v.items)) }
    {
        match elements(term) {
            Some(terms) => self.nets(alloc, terms),
            None => Ok(None),
        }
    }

    /// How many inputs a list has; `None` where the term is no list of nets, or a named one stands twice in it.
    pub(crate) fn inputs(
        &mut self,
        alloc: Global,
        term: &RawTerm<'s>,
    ) -> Result<Option<u32>, AllocError>
        requires first { self.old.names ≡ [] }
        requires written { is_written (form_of term.now) ≡ true }
        ensures { IfOk result (λ o. MatchOption o (HasNoInputs (apart (form_of term.now) self.old.own).0) (ReadsInputs self.old self.new (form_of term.now))) }
    {
        let Some(inputs) = self.list(alloc, term)? else {
            return Ok(None);
        };
        if inputs.len() != self.names.len() {
            return Ok(None);
        }
        match u32::try_from(inputs.len()) {
            Ok(count) => Ok(Some(count)),
            Err(_) => Err(AllocError),
        }
    }
}
