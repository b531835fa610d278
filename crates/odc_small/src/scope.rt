//! The names that stand where a text is read.

ghost use Rattle.std.specs.Prelude.{◌≡◌, ◌≢◌, ◌<◌, ◌^◌, MatchOption, Some, length};
ghost use Rattle.odc_small.specs.Names.{IsCallable, arity_of, position_of, procedure_of, variable_of};
ghost use Rattle.odc_small.specs.View.{callable as callable_tree, AreFew};

/// A name in an open block, and the number of its variable.
#[derive(Clone, Copy)]
pub struct Binding {
    pub name: u8,
    pub variable: u32,
}

/// A procedure by its name, and how many parameters it has.
#[derive(Clone, Copy)]
pub struct Signature {
    pub name: u8,
    pub parameters: u32,
}

/// The procedures that may be called.
#[derive(Drop)]
pub enum Callable {
    /// Any, with any arguments.
    Any,
    /// Those of a list, in its order.
    Listed(Vec<Signature>),
}

/// The variable of a name, where it is in an open block.
pub fn variable_at(name: u8, names: &[Binding]) -> Option<u32>
    ensures { result ≡ variable_of name names.now }
{
    for known in names {
        if name == known.name {
            return Some(known.variable);
        }
    }
    None
}

// The position of a procedure among these, where it takes so many arguments.
fn listed_at(name: u8, arguments: usize, signatures: &[Signature]) -> Option<u32>
    requires { length signatures.now < 2 ^ 31 }
    ensures { MatchOption result (arity_of name signatures.now ≢ Some arguments) (λ x. (arity_of name signatures.now ≡ Some arguments) × (x ≡ position_of name signatures.now)) }
{
    let mut position = 0;
    for signature in signatures {
        if name == signature.name {
            if signature.parameters as usize == arguments {
                return Some(position);
            }
            return None;
        }
        position += 1;
    }
    None
}

/// The position of a procedure that may be called with so many arguments.
pub fn procedure_at(name: u8, arguments: usize, callable: &Callable) -> Option<u32>
    requires { AreFew callable.now }
    ensures { MatchOption result (¬ IsCallable (callable_tree callable.now) name arguments)
        (λ x. IsCallable (callable_tree callable.now) name arguments × (x ≡ procedure_of name (callable_tree callable.now))) }
{
    match callable {
        Callable::Any => Some(0),
        Callable::Listed(signatures) => listed_at(name, arguments, signatures),
    }
}
