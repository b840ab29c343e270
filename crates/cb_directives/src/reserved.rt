//! The names with a meaning of their own, each with its number of arguments.

ghost use Rattle.std.specs.Prelude.{◌≡◌, ◌&&◌, codes};
ghost use Rattle.cb_model.specs.Directives.{same_sign, has_sign, reserved};
ghost use Rattle.cb_model.specs.Sorts.{circuit_sign};
ghost use Rattle.cb_model.specs.Loading.{module_sign, spec_sign};

/// Whether two names with their numbers of arguments are the same.
fn equal(name: &[u8], count: usize, other: &[u8], others: usize) -> bool
    ensures { result ≡ same_sign (name.now, count) (other.now, others) }
{
    name == other && count == others
}

/// Whether a name with its number of arguments is this one.
fn is(name: &[u8], count: usize, other: &[u8], others: usize) -> bool
    ensures same { result ≡ same_sign (name.now, count) (other.now, others) }
    ensures turned { result ≡ same_sign (other.now, others) (name.now, count) }
{
    equal(name, count, other, others)
}

/// Whether a name with its number of arguments is that of the goal that holds.
pub fn is_true(name: &[u8], count: usize) -> bool
    ensures same { result ≡ same_sign (name.now, count) (codes "true", 0) }
    ensures turned { result ≡ same_sign (codes "true", 0) (name.now, count) }
{
    is(name, count, b"true", 0)
}

/// Whether a name with its number of arguments is that of the goal that fails.
pub fn is_fail(name: &[u8], count: usize) -> bool
    ensures same { result ≡ same_sign (name.now, count) (codes "fail", 0) }
    ensures turned { result ≡ same_sign (codes "fail", 0) (name.now, count) }
{
    is(name, count, b"fail", 0)
}

/// Whether a name with its number of arguments is that of goals of circuits.
pub fn is_circuit(name: &[u8], count: usize) -> bool
    ensures same { result ≡ same_sign (name.now, count) circuit_sign }
    ensures turned { result ≡ same_sign circuit_sign (name.now, count) }
{
    is(name, count, b"circuit", 3)
}

/// Whether a name with its number of arguments is that of facts of modules.
pub fn is_module(name: &[u8], count: usize) -> bool
    ensures same { result ≡ same_sign (name.now, count) module_sign }
    ensures turned { result ≡ same_sign module_sign (name.now, count) }
{
    is(name, count, b"module", 4)
}

/// Whether a name with its number of arguments is that of facts of specifications.
pub fn is_spec(name: &[u8], count: usize) -> bool
    ensures same { result ≡ same_sign (name.now, count) spec_sign }
    ensures turned { result ≡ same_sign spec_sign (name.now, count) }
{
    is(name, count, b"spec", 3)
}

/// Whether no directive may declare the name.
pub(crate) fn is_reserved(name: &[u8], count: usize) -> bool
    ensures { result ≡ has_sign reserved (name.now, count) }
{
    is_true(name, count)
        || is_fail(name, count)
        || is_circuit(name, count)
        || is_module(name, count)
        || is_spec(name, count)
}
